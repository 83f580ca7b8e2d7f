//! The tasks of the program.
ghost use Rattle.std.specs.Prelude.{◌≡◌};
ghost use Rattle.cc_cli.specs.Task.{writes_page};

use cc_drive::DriveConfig;
use cc_log::Options;
use cc_show::Form;

/// A task of the program, with its options.
#[derive(Clone, Copy)]
pub enum Task {
    /// A plan is played.
    Play,
    /// Receipts are audited.
    Audit,
    /// A log of calls is judged.
    Judge(Options),
    /// The run of a plan is shown.
    Show(Form),
    /// A queue is driven by threads.
    Drive(DriveConfig),
}

impl Task {
    /// Whether the answer is a page: the page of a run, or that of a judged log.
    pub fn writes_page(self) -> bool
        ensures { result ≡ writes_page self }
    {
        match self {
            Task::Show(form) => form == Form::Page,
            Task::Judge(options) => options.page,
            _ => false,
        }
    }
}
