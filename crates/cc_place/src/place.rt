//! The refusal of an input, with its place.
ghost use Rattle.std.specs.Prelude.{◌≡◌, IfOk};
ghost use Rattle.serde_json.specs.View.{view};
ghost use Rattle.cc_place.specs.Why.{IsDue, IsDueOf, Tells, kind_in, kind_of};

use cc_plan::{PlanFault, parse, plan_in, receipts_in, version};
use serde_json::Value;
use std::alloc::{AllocError, Global};

mod find;
mod position;
mod stray;
mod walk;
mod wanted;

use find::{place_of, stray_of};
pub use position::line_and_column;
pub use walk::{Found, Trail, ValueKind};
pub use wanted::{Check, Kind, Table, Wanted};

/// The table of an input that is no JSON.
const NO_TABLE: Table = Table {
    kind: Kind::Plan,
    version: 1,
    groups: 1,
};

/// The place at which an input is refused.
#[derive(Clone, Copy)]
pub enum Place {
    /// At this byte, which isn't UTF-8.
    Byte(usize),
    /// At the token that begins here, which can't come next; at the length of the text, since it ends too early.
    Token(usize),
    /// At the root, which is no object.
    Root(Found),
    /// At this key of the root, which isn't known.
    Unknown(Found),
    /// At the root, which begins here and lacks this key.
    Missing(usize, &'static str),
    /// At a value that has to be another.
    Value(Misfit),
    /// At the name of a pass that the plan doesn't have.
    Stranger(Stranger),
}

/// A value that has to be another.
#[derive(Clone, Copy)]
pub struct Misfit {
    /// The key of the root.
    pub key: &'static str,
    /// The places from the value of the key on.
    pub trail: Trail,
    /// The value.
    pub found: Found,
    /// The value that it has to be.
    pub wanted: Wanted,
    /// Whether it has another shape, or is out of its range.
    pub check: Check,
}

/// The name of a pass that a plan doesn't have.
#[derive(Clone, Copy)]
pub struct Stranger {
    /// Which entry of the schedule names it.
    pub entry: usize,
    /// The name.
    pub name: Found,
    /// How many senders the plan has.
    pub senders: usize,
    /// How many receivers it has, in all groups.
    pub receivers: usize,
}

/// Why an input is refused, if it is.
#[derive(Clone, Copy)]
pub struct Explained {
    /// The table by which the input was read.
    pub table: Table,
    /// The fault for which it is refused.
    pub fault: Option<PlanFault>,
    /// The place of that fault. An input that is too long has no place.
    pub place: Option<Place>,
}

/// Reads an input, as a plan or as receipts, and returns why it is refused, if it is, and the place of that.
#[tactic(auto, unfolding(cc_plan::specs::PlanOf::plan_of, cc_plan::specs::ReceiptsOf::receipts_of))]
pub fn explain(alloc: Global, bytes: &[u8]) -> Result<Explained, AllocError>
    ensures fault { IfOk result (λ why. IsDue (kind_of bytes.now) why.fault bytes.now) }
    ensures kind { IfOk result (λ why. why.table.kind ≡ kind_of bytes.now) }
{
    match parse(alloc, bytes) {
        Ok(tree) => refused(alloc, bytes, &tree),
        Err(PlanFault::NoMemory) => Err(AllocError),
        Err(fault) => Ok(Explained {
            table: NO_TABLE,
            fault: Some(fault),
            place: stray_of(alloc, bytes, fault)?,
        }),
    }
}

/// Why a text that is JSON is refused, if it is, by its tree.
fn refused(alloc: Global, bytes: &[u8], tree: &Value) -> Result<Explained, AllocError>
    ensures fault { IfOk result (λ why. IsDueOf (kind_in (view tree.now)) why.fault (view tree.now)) }
    ensures kind { IfOk result (λ why. why.table.kind ≡ kind_in (view tree.now)) }
{
    let table = table_in(tree);
    let fault = fault_of(alloc, tree, table.kind)?;
    let place = match fault {
        Some(fault) => place_of(alloc, bytes, tree, table, fault)?,
        None => None,
    };
    Ok(Explained {
        table,
        fault,
        place,
    })
}

/// The table by which a tree is read.
fn table_in(tree: &Value) -> Table
    ensures { result.kind ≡ kind_in (view tree.now) }
{
    Table {
        kind: kind_in(tree),
        version: version::table(tree),
        groups: tree.get("groups").and_then(Value::as_u64).unwrap_or(1),
    }
}

/// The kind of a tree: receipts if it is an object with a key of their rows.
fn kind_in(tree: &Value) -> Kind
    ensures { result ≡ kind_in (view tree.now) }
{
    if tree.get("accepted").is_some() || tree.get("taken").is_some() {
        Kind::Receipts
    } else {
        Kind::Plan
    }
}

/// The fault for which the reader of this kind refuses the tree, if it does.
fn fault_of(alloc: Global, tree: &Value, kind: Kind) -> Result<Option<PlanFault>, AllocError>
    ensures { IfOk result (λ fault. IsDueOf kind fault (view tree.now)) }
{
    match kind {
        Kind::Plan => fault_in(plan_in(alloc, tree)),
        Kind::Receipts => fault_in(receipts_in(alloc, tree)),
    }
}

/// The fault that a reader found, if any, or that it ran out of memory.
fn fault_in<T: Drop>(read: Result<T, PlanFault>) -> Result<Option<PlanFault>, AllocError>
    ensures { IfOk result (λ fault. Tells fault read) }
{
    match read {
        Ok(_) => Ok(None),
        Err(PlanFault::NoMemory) => Err(AllocError),
        Err(fault) => Ok(Some(fault)),
    }
}
