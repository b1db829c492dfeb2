//! A reply to a command.
ghost use Rattle.line_spec.specs.Messages.{IsResponseBody};
ghost use Rattle.ice_msg.specs.Reading.{answered};
ghost use Rattle.host_session.specs.Calls.{IsReply};

use crate::HostError;
use ice_frame::Frame;
use ice_msg::{Response, read_response};
use std::marker::Model;

/// A frame whose body is a response.
#[derive(Drop)]
pub struct Reply {
    frame: Frame,
}

impl Model for Reply {
    ghost use Rattle.line_spec.specs.Messages.{Response, IsResponseBody};
    ghost use Rattle.line_spec.specs.Frames.{Frame as Framed};
    ghost use Rattle.ice_frame.specs.Front.{frame_of};

    ghost Value = { Framed };

    ghost view = { λ s. frame_of s.frame };

    ghost invariant = { λ s. (response : Response) × IsResponseBody response s.frame.body.items };
}

impl Reply {
    /// The reply that the frame is; where its body is no response, the frame is handed back as a bad reply.
    pub(crate) fn of(frame: Frame) -> Result<Reply, HostError>
        ensures { IsReply frame result }
    {
        if read_response(frame.body.as_slice()).is_err() {
            return Err(HostError::BadReply(frame));
        }
        Ok(Reply { frame })
    }

    /// What the tool answers.
    pub fn response(&self) -> Response<'_>
        ensures { IsResponseBody (answered result) self.now.body }
    {
        match read_response(self.frame.body.as_slice()) {
            Ok(response) => response,
            Err(_) => unreachable!(),
        }
    }
}
