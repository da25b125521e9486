//! A stream that a case looks at, and changes, while an engine has it.

use futures::task::{Context, Poll};
use kp_cases::StepFault;
use kp_connection::Stream;
use kp_connection::script::Script;
use std::alloc::{AllocError, Global};
use std::cell::{RefCell, RefMut};
use std::io::{self, ErrorKind};
use std::rc::Rc;

/// A stream that others have too. What its calls answer is not told.
#[derive(Drop)]
pub(crate) struct Shared {
    stream: Rc<RefCell<Script>, Global>,
}

impl Shared {
    pub(crate) fn new(alloc: Global, stream: Script) -> Result<Shared, AllocError> {
        let stream = Rc::new(alloc, RefCell::new(stream))?;
        Ok(Shared { stream })
    }

    /// The same stream, for another to have.
    pub(crate) fn share(&self) -> Result<Shared, AllocError> {
        let stream = self.stream.clone()?;
        Ok(Shared { stream })
    }

    pub(crate) fn lend(&self) -> Result<RefMut<'_, Script>, StepFault> {
        Ok(self.stream.try_borrow_mut().map_err(|_| "it is in use")?)
    }
}

impl Stream for Shared {
    ghost answers = { λ _ _ _. Unit {0} };

    ghost answers_nothing = { λ _. tt };

    ghost answers_in_order = { λ _ _ _ _ _ _ _. tt };

    fn poll_take(&mut self, cx: &mut Context<'_>, buf: &mut [u8]) -> Poll<io::Result<usize>> {
        match self.lend() {
            Ok(mut stream) => stream.poll_take(cx, buf),
            Err(_) => Poll::Ready(Err(ErrorKind::ResourceBusy.into())),
        }
    }

    fn poll_give(&mut self, cx: &mut Context<'_>, buf: &[u8]) -> Poll<io::Result<usize>> {
        match self.lend() {
            Ok(mut stream) => match stream.poll_give(cx, buf) {
                // (what keeps the bytes was refused memory, which a stream has no need of)
                Poll::Ready(Err(e)) if e.kind() == ErrorKind::OutOfMemory => {
                    stream.poll_give(cx, buf)
                }
                given => given,
            },
            Err(_) => Poll::Ready(Err(ErrorKind::ResourceBusy.into())),
        }
    }
}
