// A frame's report from its number, the bursts and the slots that are missed.
ghost use Rattle.std.specs.Prelude.{◌≡◌, ◌^◌, ◌<◌, ◌&&◌, length, if◌then◌else◌, Ok, Err, ◌==◌, nat_eq};
ghost use Rattle.receiver.specs.Receiver.{receive_refusal, blank, light_for, answering, found_record, burst_record, slot_record, reported};

use field::octets::Octets;
use onu::answer::Kind;
use plant::burst::Burst;
use report::offset::Offset;
use report::record::{Light, Record};

// Why no report was made.
#[derive(Clone, Copy, Debug, PartialEq, Eq)]
pub enum ReceiveFault {
    // not 53 marks, or a report of other than 954 bytes
    Length = 14,
}

impl ReceiveFault {
    // The number of the refusal.
    pub fn number(self) -> u32
        ensures { result ≡ receive_refusal self }
    {
        self as u32
    }
}

// A record of nothing but its light.
#[tactic(auto, unfolding(crate::specs::Receiver::blank))]
fn blank(light: Light) -> Record
    ensures { result ≡ blank light }
{
    Record {
        light,
        parity: 0,
        offset: Offset::Late(0),
        message: Octets::new([0; 12]),
    }
}

fn light(kind: Kind) -> Light
    ensures { result ≡ light_for kind }
{
    match kind {
        Kind::Ploam => Light::Ploam,
        Kind::Data => Light::Data,
    }
}

fn burst_record(burst: &Burst, slot: u128) -> Record
    requires { slot < 2 ^ 100 }
    ensures { result ≡ burst_record burst.now slot }
{
    match Offset::between(u128::from(burst.start), 448 * slot + 35392) {
        Some(offset) => Record {
            light: light(burst.kind),
            parity: 0,
            offset,
            message: burst.message,
        },
        None => blank(Light::Broken),
    }
}

// The record of a slot that is heard.
fn found_record(bursts: &[Burst], slot: u128) -> Record
    requires { slot < 2 ^ 100 }
    ensures { result ≡ found_record (answering slot bursts.now) slot }
{
    let mut here = bursts.iter().filter(|burst| u128::from(burst.slot) == slot);
    match (here.next(), here.next()) {
        (None, _) => blank(Light::Dark),
        (Some(burst), None) => burst_record(burst, slot),
        (Some(_), Some(_)) => blank(Light::Broken),
    }
}

// The record of a slot, counted from 0 in its frame.
#[tactic(auto, unfolding(crate::specs::Receiver::slot_record))]
fn slot_record(frame: u64, x: usize, bursts: &[Burst], mark: u8) -> Record
    ensures { result ≡ slot_record frame x bursts.now mark }
{
    if mark != 0 {
        return blank(Light::Dark);
    }
    found_record(bursts, 53 * u128::from(frame) + x as u128)
}

// Writes a frame's report of 954 bytes; other lengths are refused and the buffer is left as it was.
pub fn receive(
    frame: u64,
    bursts: &[Burst],
    marks: &[u8],
    report: &mut [u8],
) -> Result<(), ReceiveFault>
    ensures answer { result ≡ (if nat_eq (length marks.now) 53 && length report.old == 954 then Ok tt else Err ReceiveFault.Length) }
    ensures report { report.new ≡ (if nat_eq (length marks.now) 53 && length report.old == 954 then reported frame bursts.now marks.now 53 else report.old) }
{
    if marks.len() != 53 || report.len() != 954 {
        return Err(ReceiveFault::Length);
    }
    for (x, mark) in marks.iter().enumerate() {
        let bytes: [u8; 18] = slot_record(frame, x, bursts, *mark).into();
        report[18 * x..18 * x + 18].copy_from_slice(&bytes);
    }
    Ok(())
}
