//! The exports of handles, which the Rust crate and `bindings/c/vahepito_queue.c` call. `bindings/c/handles.h` is their header.
//!
//! A handle holds one pass with its own share of the queue, or none. The handle is lent to each call, which runs with its
//! content (`Handle::with`). No export requires anything: each possible mistake is tested, and reported by a code. No call but
//! the opening takes memory.
//!
//! `specs/Calls.antt` says what each call returns, and `specs/OpenHandles.antt` what the opening does.
ghost use Rattle.std.specs.Prelude.{◌≡◌, ◌≢◌, nat_le};
ghost use Rattle.std.specs.Mem.{type_size};
ghost use Rattle.cc_passes.specs.contracts.open_handles.Settings as settings_type;
ghost use Rattle.cc_passes.specs.contracts.handle.Handle as handle_type;
ghost use Rattle.cc_passes.specs.contracts.items.TakenItem as item_type;
ghost use Rattle.cc_passes.specs.contracts.items.TakenWords as words_type;
ghost use Rattle.cc_capi.specs.declared.version.TheConstants.{VERSION};
ghost use Rattle.cc_passes.specs.Items.{one_word, all_words};
ghost use Rattle.cc_passes.specs.OpenHandles.{config_of, refusal, HaveOpened};
ghost use Rattle.cc_passes.specs.Handles.{pass_of, longest_of, IsDropped};
ghost use Rattle.cc_passes.specs.Calls.{single, fitting, IfRoom, BeginsSend, TurnsSend, TriesSend, BeginsClose, TurnsClose, BeginsTake, TurnsTake, TriesTake};
ghost use Rattle.cc_passes.specs.declared.looks.Count.{Count};
ghost use Rattle.cc_passes.specs.Looks.{LooksAt};

use crate::version::VERSION;
use cc_model::Body;
use cc_passes::handle::Handle;
use cc_passes::items::{ItemForm, TakenItem, TakenWords};
use cc_passes::looks::Count;
use cc_passes::open_handles::{Settings, check, open};
use cc_passes::return_codes::{DONE, NO_MEMORY, NO_PASS};
use std::alloc::Global;
use std::mem::size_of;

/// The version of the library, which a caller compares with the one that it was written for: a million times the first of
/// its three numbers, a thousand times the second, and the third. This call is the same in every version.
#[unsafe(no_mangle)]
pub extern "C" fn vahepito_version() -> u32
    ensures { result ≡ VERSION }
{
    VERSION
}

/// How many bytes each struct has that the other calls take: a configuration, a handle, an item, and an item with all words
/// of its body. A caller asks only the library of its own version: another version's may have other structs.
#[unsafe(no_mangle)]
pub extern "C" fn vahepito_sizes(
    config: &mut usize,
    pass: &mut usize,
    item: &mut usize,
    words_item: &mut usize,
)
    ensures config { config.new ≡ type_size settings_type.the_row }
    ensures pass { pass.new ≡ type_size handle_type.the_row }
    ensures item { item.new ≡ type_size item_type.the_row }
    ensures words_item { words_item.new ≡ type_size words_type.the_row }
{
    *config = size_of::<Settings>();
    *pass = size_of::<Handle>();
    *item = size_of::<TakenItem>();
    *words_item = size_of::<TakenWords>();
}

/// Opens a queue of this number of groups of receivers and of bodies of at most this number of words, and fills a handle for each
/// sender and each receiver. The receivers of a group follow each other, the first group first.
#[unsafe(no_mangle)]
pub extern "C" fn vahepito_open_words(
    alloc: Global,
    config: &Settings,
    groups: u32,
    words: u32,
    senders: &mut [Handle],
    receivers: &mut [Handle],
) -> u32
    ensures refused { refusal (config_of config.now groups) words senders.old receivers.old ≢ DONE → result ≡ refusal (config_of config.now groups) words senders.old receivers.old }
    ensures memory { refusal (config_of config.now groups) words senders.old receivers.old ≡ DONE → result ≢ DONE → result ≡ NO_MEMORY }
    ensures opened { result ≡ DONE → HaveOpened (config_of config.now groups) words senders.new receivers.new }
    ensures same { result ≢ DONE → (senders.new ≡ senders.old) × (receivers.new ≡ receivers.old) }
{
    let config = match check(&config.config(groups), words, senders, receivers) {
        Ok(config) => config,
        Err(code) => return code,
    };
    match open(alloc, &config, words, senders, receivers) {
        Ok(()) => DONE,
        Err(_) => NO_MEMORY,
    }
}

/// Begins a send of these words, if a body of the queue may have that many.
#[unsafe(no_mangle)]
pub extern "C" fn vahepito_begin_send_words(
    alloc: Global,
    sender: &mut Handle,
    words: &[u64],
) -> u32
    ensures begins { BeginsSend (fitting (longest_of sender.old) words.now) (pass_of sender.old) (pass_of sender.new) result }
    ensures same { longest_of sender.new ≡ longest_of sender.old }
{
    sender.with(alloc, &mut |held| held.begin_send(held.fitting(words)))
}

/// One turn of a send that was begun.
#[unsafe(no_mangle)]
pub extern "C" fn vahepito_turn_send(
    alloc: Global,
    sender: &mut Handle,
    place: &mut u64,
    served: &mut u32,
) -> u32
    ensures turns { TurnsSend (pass_of sender.old) (pass_of sender.new) (record { code = result; number = place.new; served = served.new }) }
    ensures same { longest_of sender.new ≡ longest_of sender.old }
{
    *place = 0;
    *served = 0;
    sender.with(alloc, &mut |held| held.turn_send(place, served))
}

/// Begins a send of this body, and if it was begun turns it once.
#[unsafe(no_mangle)]
pub extern "C" fn vahepito_try_send(
    alloc: Global,
    sender: &mut Handle,
    body: u64,
    place: &mut u64,
    served: &mut u32,
) -> u32
    ensures tries { TriesSend (single body) (pass_of sender.old) (pass_of sender.new) (record { code = result; number = place.new; served = served.new }) }
    ensures same { longest_of sender.new ≡ longest_of sender.old }
{
    *place = 0;
    *served = 0;
    sender.with(
        alloc,
        &mut |held| held.try_send(Ok(Body::one(body)), place, served),
    )
}

/// Begins a send of these words, if a body of the queue may have that many, and if it was begun turns it once.
#[unsafe(no_mangle)]
pub extern "C" fn vahepito_try_send_words(
    alloc: Global,
    sender: &mut Handle,
    words: &[u64],
    place: &mut u64,
    served: &mut u32,
) -> u32
    ensures tries { TriesSend (fitting (longest_of sender.old) words.now) (pass_of sender.old) (pass_of sender.new) (record { code = result; number = place.new; served = served.new }) }
    ensures same { longest_of sender.new ≡ longest_of sender.old }
{
    *place = 0;
    *served = 0;
    sender.with(
        alloc,
        &mut |held| held.try_send(held.fitting(words), place, served),
    )
}

/// Begins a close.
#[unsafe(no_mangle)]
pub extern "C" fn vahepito_begin_close(alloc: Global, sender: &mut Handle) -> u32
    ensures begins { BeginsClose (pass_of sender.old) (pass_of sender.new) result }
    ensures same { longest_of sender.new ≡ longest_of sender.old }
{
    sender.with(alloc, &mut |held| held.begin_close())
}

/// One turn of a close that was begun.
#[unsafe(no_mangle)]
pub extern "C" fn vahepito_turn_close(
    alloc: Global,
    sender: &mut Handle,
    total: &mut u64,
    served: &mut u32,
) -> u32
    ensures turns { TurnsClose (pass_of sender.old) (pass_of sender.new) (record { code = result; number = total.new; served = served.new }) }
    ensures same { longest_of sender.new ≡ longest_of sender.old }
{
    *total = 0;
    *served = 0;
    sender.with(alloc, &mut |held| held.turn_close(total, served))
}

/// Begins a take.
#[unsafe(no_mangle)]
pub extern "C" fn vahepito_begin_take(alloc: Global, receiver: &mut Handle) -> u32
    ensures begins { BeginsTake (pass_of receiver.old) (pass_of receiver.new) result }
    ensures same { longest_of receiver.new ≡ longest_of receiver.old }
{
    receiver.with(alloc, &mut |held| held.begin_take())
}

/// One turn of a take that was begun.
#[unsafe(no_mangle)]
pub extern "C" fn vahepito_turn_take(
    alloc: Global,
    receiver: &mut Handle,
    item: &mut TakenItem,
    total: &mut u64,
    served: &mut u32,
) -> u32
    ensures turns { IfRoom one_word (nat_le (longest_of receiver.old) one_word.room) (TurnsTake one_word) (pass_of receiver.old) (pass_of receiver.new) (record { code = result; item = item.new; total = total.new; served = served.new }) }
    ensures same { longest_of receiver.new ≡ longest_of receiver.old }
{
    *item = TakenItem::none();
    *total = 0;
    *served = 0;
    receiver.with(alloc, &mut |held| held.turn_take(item, total, served))
}

/// Begins a take, and if it was begun turns it once.
#[unsafe(no_mangle)]
pub extern "C" fn vahepito_try_take(
    alloc: Global,
    receiver: &mut Handle,
    item: &mut TakenItem,
    total: &mut u64,
    served: &mut u32,
) -> u32
    ensures tries { IfRoom one_word (nat_le (longest_of receiver.old) one_word.room) (TriesTake one_word) (pass_of receiver.old) (pass_of receiver.new) (record { code = result; item = item.new; total = total.new; served = served.new }) }
    ensures same { longest_of receiver.new ≡ longest_of receiver.old }
{
    *item = TakenItem::none();
    *total = 0;
    *served = 0;
    receiver.with(alloc, &mut |held| held.try_take(item, total, served))
}

/// One turn of a take that was begun, of an item with all words of its body.
#[unsafe(no_mangle)]
pub extern "C" fn vahepito_turn_take_words(
    alloc: Global,
    receiver: &mut Handle,
    item: &mut TakenWords,
    total: &mut u64,
    served: &mut u32,
) -> u32
    ensures turns { IfRoom all_words (nat_le (longest_of receiver.old) all_words.room) (TurnsTake all_words) (pass_of receiver.old) (pass_of receiver.new) (record { code = result; item = item.new; total = total.new; served = served.new }) }
    ensures same { longest_of receiver.new ≡ longest_of receiver.old }
{
    *item = TakenWords::none();
    *total = 0;
    *served = 0;
    receiver.with(alloc, &mut |held| held.turn_take(item, total, served))
}

/// Begins a take, and if it was begun turns it once, of an item with all words of its body.
#[unsafe(no_mangle)]
pub extern "C" fn vahepito_try_take_words(
    alloc: Global,
    receiver: &mut Handle,
    item: &mut TakenWords,
    total: &mut u64,
    served: &mut u32,
) -> u32
    ensures tries { IfRoom all_words (nat_le (longest_of receiver.old) all_words.room) (TriesTake all_words) (pass_of receiver.old) (pass_of receiver.new) (record { code = result; item = item.new; total = total.new; served = served.new }) }
    ensures same { longest_of receiver.new ≡ longest_of receiver.old }
{
    *item = TakenWords::none();
    *total = 0;
    *served = 0;
    receiver.with(alloc, &mut |held| held.try_take(item, total, served))
}

/// Gives up the pass of a handle, with its call if it had begun one. It does nothing more. The last handle of a queue frees it.
#[unsafe(no_mangle)]
pub extern "C" fn vahepito_drop(alloc: Global, pass: &mut Handle) -> u32
    ensures { IsDropped pass.old pass.new result }
{
    let Some(mut held) = pass.take(alloc) else {
        return NO_PASS;
    };
    pass.abandoned = held.give_up();
    DONE
}

/// Looks, by a pass that has no call, how many items the queue has accepted: one load. The pass has seen then the run of which this is the
/// count, which goes on from all that it had seen.
#[unsafe(no_mangle)]
pub extern "C" fn vahepito_accepted(alloc: Global, pass: &mut Handle, count: &mut u64) -> u32
    ensures looks { LooksAt Count.Accepted (pass_of pass.old) (pass_of pass.new) result count.new }
    ensures same { longest_of pass.new ≡ longest_of pass.old }
{
    *count = 0;
    pass.with(alloc, &mut |held| held.look(Count::Accepted, count))
}

/// Looks how many items this group, from 1, has taken.
#[unsafe(no_mangle)]
pub extern "C" fn vahepito_taken(
    alloc: Global,
    pass: &mut Handle,
    group: u32,
    count: &mut u64,
) -> u32
    ensures looks { LooksAt (Count.Taken group) (pass_of pass.old) (pass_of pass.new) result count.new }
    ensures same { longest_of pass.new ≡ longest_of pass.old }
{
    *count = 0;
    pass.with(alloc, &mut |held| held.look(Count::Taken(group), count))
}

/// Looks whether the queue is shut: 1 or 0.
#[unsafe(no_mangle)]
pub extern "C" fn vahepito_is_shut(alloc: Global, pass: &mut Handle, shut: &mut u64) -> u32
    ensures looks { LooksAt Count.Shut (pass_of pass.old) (pass_of pass.new) result shut.new }
    ensures same { longest_of pass.new ≡ longest_of pass.old }
{
    *shut = 0;
    pass.with(alloc, &mut |held| held.look(Count::Shut, shut))
}
