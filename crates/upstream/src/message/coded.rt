// Messages from an ONU, read and written.
ghost use Rattle.upstream.specs.Message.{upstream_of, bytes_of};
ghost use Rattle.upstream.specs.Laws.{read_back};

use crate::fault::UpstreamFault;
use crate::message::{Upstream, read, write};
use field::coded::Coded;

impl Coded for Upstream {
    type Fault = UpstreamFault;

    ghost bytes_of = { bytes_of };

    ghost message_of = { upstream_of };

    ghost read_back = { read_back };

    fn read(bytes: &[u8; 12]) -> Result<Upstream, UpstreamFault> {
        read::message(bytes)
    }

    fn write(self) -> [u8; 12] {
        write::bytes(self)
    }
}
