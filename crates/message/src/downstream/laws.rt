// What holds of reading and writing together.
ghost use Rattle.std.specs.Prelude.{◌≡◌};
ghost use Rattle.message.specs.Kept.{rewritten_of, WritingKeeps};

use crate::downstream::Downstream;
use crate::fault::MessageFault;
use field::coded::Coded;

// Writing what was read gives the same bytes wherever they are specified.
pub fn writing_keeps(bytes: &[u8; 12]) -> Result<[u8; 12], MessageFault>
    ensures result { result ≡ rewritten_of bytes.now }
    ensures law { WritingKeeps }
{
    let message = Downstream::read(bytes)?;
    Ok(message.write())
}
