// What the gateway has sent on the line that is followed.
use bench_account::lane::Lane;
use std::alloc::{AllocError, Global};
use wire::kinds::Channel;

/// The messages of both channels of the line that is followed, from its first connection on.
#[derive(Drop)]
pub struct UnderWay {
    line: Option<usize>,
    pub live: Lane,
    pub recovered: Lane,
}

impl UnderWay {
    /// Of no line.
    pub fn new(heap: Global) -> UnderWay {
        UnderWay {
            line: None,
            live: Lane::new(heap),
            recovered: Lane::new(heap),
        }
    }

    /// From now on the messages of this line are kept.
    pub fn follow(&mut self, line: usize) {
        self.line = Some(line);
    }

    /// A message is sent on a channel of a line.
    pub fn carry(
        &mut self,
        heap: Global,
        channel: Channel,
        line: usize,
        message: &[u8],
    ) -> Result<(), AllocError> {
        if self.line != Some(line) {
            return Ok(());
        }
        match channel {
            Channel::Recovery => self.recovered.send(heap, message),
            _ => self.live.send(heap, message),
        }
    }

    /// What has not come is gone.
    pub fn cut(&mut self) {
        self.live.cut();
        self.recovered.cut();
    }
}
