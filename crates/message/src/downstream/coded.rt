// Messages to the ONUs, read and written.
ghost use Rattle.message.specs.Downstream.{downstream_of, bytes_of};
ghost use Rattle.message.specs.Laws.{read_back};

use crate::downstream::{Downstream, read, write};
use crate::fault::MessageFault;
use field::coded::Coded;

impl Coded for Downstream {
    type Fault = MessageFault;

    ghost bytes_of = { bytes_of };

    ghost message_of = { downstream_of };

    ghost read_back = { read_back };

    fn read(bytes: &[u8; 12]) -> Result<Downstream, MessageFault> {
        read::message(bytes)
    }

    fn write(self) -> [u8; 12] {
        write::bytes(self)
    }
}
