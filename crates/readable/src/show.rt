// Cells, messages and faults as text, appended to a line.
ghost use Rattle.std.specs.Prelude.{◌≡◌, Some, string_bytes, OnOk};
ghost use Rattle.readable.specs.Names.{kind_name, kind_of};
ghost use Rattle.readable.specs.Shown.{message_text, fault_text, with_message, with_grants, with_cell, with_frame, with_fault};

use crate::kind::Kind;
use crate::show::downstream::Fields;
use field::grant::Grant;
use keyed::key::Key;
use keyed::value::{Keyed, Shown};
use message::downstream::Downstream;
use message::fault::MessageFault;
use std::alloc::AllocError;
use std::fmt;

mod downstream;
pub mod fault;

// Something of another crate that a line tells.
#[derive(Clone, Copy)]
pub(crate) struct Text<T>(pub(crate) T);

// Appends the grants, each run of equal ones once: `5*3,69,idle*2`.
pub fn grant_runs(out: &mut String, grants: &[Grant]) -> Result<(), AllocError>
    ensures { OnOk result (string_bytes out.new ≡ with_grants (string_bytes out.old) grants.now) }
{
    write!(out, "{}", Text(grants))
}

// The name of the message's kind.
pub fn name(message: &Downstream) -> &'static str
    ensures { result.now ≡ kind_name (kind_of message.now) }
{
    Kind::from(message).name()
}

impl fmt::Display for Text<Downstream> {
    ghost output = { λ message. Some (message_text message.0) };

    fn fmt<W: fmt::Write>(&self, f: &mut fmt::Formatter<W>) -> fmt::Result {
        write!(f, "message={}{}", name(&self.0), Fields(self.0))
    }
}

// Appends `message=NAME` and the fields.
pub fn message(out: &mut String, message: &Downstream) -> Result<(), AllocError>
    ensures { OnOk result (string_bytes out.new ≡ with_message (string_bytes out.old) message.now) }
{
    write!(out, "{}", Text(*message))
}

// Appends a whole cell.
pub fn cell(
    out: &mut String,
    first: bool,
    grants: &[Grant],
    contents: &Downstream,
) -> Result<(), AllocError>
    ensures { OnOk result (string_bytes out.new ≡ with_cell (string_bytes out.old) first grants.now contents.now) }
{
    write!(
        out,
        "cell{}{} {}",
        Keyed(Key::Bit, Shown(first)),
        Keyed(Key::Grants, Text(grants)),
        Text(*contents)
    )
}

// Appends a whole frame.
pub fn frame(
    out: &mut String,
    grants: &[Grant],
    first: &Downstream,
    second: &Downstream,
) -> Result<(), AllocError>
    ensures { OnOk result (string_bytes out.new ≡ with_frame (string_bytes out.old) grants.now first.now second.now) }
{
    write!(
        out,
        "frame{} {} ; {}",
        Keyed(Key::Grants, Text(grants)),
        Text(*first),
        Text(*second)
    )
}

impl fmt::Display for Text<MessageFault> {
    ghost output = { λ fault. Some (fault_text fault.0) };

    fn fmt<W: fmt::Write>(&self, f: &mut fmt::Formatter<W>) -> fmt::Result {
        match self.0 {
            MessageFault::UnknownIdentifier(identifier) => write!(f, "identifier={identifier}"),
            MessageFault::WrongAddress(address) => write!(f, "address={address}"),
            MessageFault::OutOfRange(field) => write!(f, "field={}", Key::from(field)),
        }
    }
}

// Appends why there is no message: `identifier=17`, `address=65` or `field=guard`.
pub fn message_fault(out: &mut String, fault: MessageFault) -> Result<(), AllocError>
    ensures { OnOk result (string_bytes out.new ≡ with_fault (string_bytes out.old) fault) }
{
    write!(out, "{}", Text(fault))
}
