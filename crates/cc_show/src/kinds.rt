//! The kinds of events as numbers.
ghost use Rattle.std.specs.Prelude.{◌≡◌};
ghost use Rattle.cc_show.specs.Page.{kind_number};

use cc_machine::Kind;

/// The number of a kind in the page, from 1 on, in the order of `Kind`.
pub fn kind_number(kind: Kind) -> u64
    ensures { result ≡ kind_number kind }
{
    match kind {
        Kind::ResetState => 1,
        Kind::Exchange => 2,
        Kind::ReadState => 3,
        Kind::HandOver => 4,
        Kind::ReadObject => 5,
        Kind::WriteObject => 6,
        Kind::ResetNext => 7,
        Kind::WriteRequest => 8,
        Kind::Link => 9,
        Kind::ReadNext => 10,
        Kind::ReadRequest => 11,
        Kind::WriteAnswer => 12,
        Kind::MarkDone => 13,
        Kind::ReadAnswer => 14,
        Kind::ReadPassed => 15,
        Kind::ResetListNode => 16,
        Kind::WriteItem => 17,
        Kind::LinkLast => 18,
        Kind::ReadDummyNext => 19,
        Kind::ReadItem => 20,
        Kind::AddPassed => 21,
    }
}
