//! The lines for a person at a terminal, beside the answer: the input that a task waits for, and that a page is for a browser; and
//! the tasks whose refusals have a line with their place.
ghost use Rattle.std.specs.Prelude.{◌≡◌, ◌<◌, ◌-◌, ◌^◌};
ghost use Rattle.cc_cli.specs.Hint.{is_explained, page_line, waits_line};
ghost use Rattle.cc_io.specs.FaultLine.{Told};

use crate::task::Task;
use cc_io::{Sink, told};

/// Whether the place is reported at which the input of this task is refused: it reads a plan or receipts.
pub fn is_explained(task: Task) -> bool
    ensures { result ≡ is_explained task }
{
    matches!(task, Task::Play | Task::Audit | Task::Show(_))
}

/// The line of a task that waits for its input; none of one that reads nothing.
fn waits_line(task: Task) -> &'static [u8]
    ensures { result.now ≡ waits_line task }
{
    match task {
        Task::Play | Task::Show(_) =>
            b"ccq: waiting for a plan on standard input; Ctrl-D ends it\n",
        Task::Audit => b"ccq: waiting for receipts on standard input; Ctrl-D ends them\n",
        Task::Judge(_) => b"ccq: waiting for a log on standard input; Ctrl-D ends it\n",
        Task::Drive(_) => b"",
    }
}

/// Reports what a task waits for, and how a person ends it.
pub fn tell_waiting<E: Sink>(errors: &mut E, task: Task)
    requires { E.write_failures errors.old < 2 ^ 64 - 1 }
    ensures { Told (E.bytes_written errors.old) (E.bytes_written errors.new)
        (E.write_failures errors.old) (E.write_failures errors.new) (waits_line task) }
{
    let _status = told(errors, waits_line(task), 0);
}

/// Refuses to write a page to a terminal: reports where a page goes, and returns the status.
pub fn decline_page<E: Sink>(errors: &mut E) -> u8
    requires { E.write_failures errors.old < 2 ^ 64 - 1 }
    ensures status { result ≡ 64 }
    ensures told { Told (E.bytes_written errors.old) (E.bytes_written errors.new)
        (E.write_failures errors.old) (E.write_failures errors.new) page_line }
{
    told(
        errors,
        b"error: a page is for a browser, and standard output is a terminal: add `> page.html`\n",
        64,
    )
}
