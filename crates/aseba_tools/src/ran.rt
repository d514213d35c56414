ghost use Rattle.std.specs.Prelude.{◌≡◌, None};

use crate::status::Status;

/// How a call ended, and the link that it opened, as it is at the end.
#[derive(Debug, Drop)]
pub struct Ran<I, Q, O> {
    pub status: Status,
    /// The input of a link that was opened to be read.
    pub input: Option<I>,
    /// The input of a link that was opened to be polled.
    pub polled: Option<Q>,
    /// The output of the link.
    pub output: Option<O>,
}

impl<I, Q, O> Ran<I, Q, O> {
    /// A call that ended without a link.
    pub(crate) fn without_link(status: Status) -> Ran<I, Q, O>
        ensures { result ≡ record { status = status; input = None; polled = None; output = None } }
    {
        Ran {
            status,
            input: None,
            polled: None,
            output: None,
        }
    }
}
