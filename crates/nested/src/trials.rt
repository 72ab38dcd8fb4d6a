// What plants and the receiver make of input that no head would send.
use bench::bench_onu::BenchOnu;
use fibre::Fibre;
use field::number::SerialNumber;
use lossy_drop::LossyDrop;
use plant::hearing::{HearFault, SLOTS};
use plant::plant::Plant;
use receiver::receive::receive;
use splitter::Splitter;
use star::Star;
use std::test::Fail;

// Upstream_overhead with a delay of 100 bits, and a mask that fits everyone; a check byte ends each.
const OVERHEAD: [u8; 13] = [64, 2, 8, 170, 170, 170, 0, 0, 1, 0, 0, 100, 98];

const MASK: [u8; 13] = [64, 4, 0, 65, 66, 67, 68, 0, 0, 0, 1, 0, 36];

// A cell of 27 ranging grants.
fn cell(message: &[u8; 13]) -> [u8; 48] {
    let mut bytes = [253; 48];
    bytes[33] = 0;
    bytes[34..47].copy_from_slice(message);
    bytes
}

fn bench(number: u64) -> BenchOnu {
    BenchOnu::new(SerialNumber::saturating(number), u64::MAX)
}

// 0 for none.
fn refusal(answer: Result<(), HearFault>) -> u32 {
    match answer {
        Ok(()) => 0,
        Err(fault) => fault.number(),
    }
}

#[test]
fn cells_are_refused_at_the_first_no(rt: HostRuntime) -> Result<(), Fail> {
    for (size, room, first, want) in [
        (0, 0, u64::MAX, 15),
        (47, 27, 0, 15),
        (49, 27, 0, 15),
        (96, 27, 0, 15),
        (48, 0, 0, 18),
        (48, 26, u64::MAX, 18),
        (48, 27, SLOTS, 19),
        (48, 27, u64::MAX, 19),
        (48, 27, 0, 0),
        (48, 27, SLOTS - 1, 0),
    ] {
        let mut onu = bench(1);
        let mut bursts = Vec::with_capacity(rt.alloc(), room)?;
        let payload = [0; 96].get(..size).ok_or("size")?;
        let answer = refusal(onu.hear(payload, first, &mut bursts));
        assert_eq!(rt; answer, want, "{size} bytes, room {room}, slot {first}");
        assert_eq!(rt; bursts.len(), 0);
        let state = if want == 0 { 2 } else { 1 };
        assert_eq!(rt; onu.look().state.number(), state);
    }
    Ok(())
}

// Scrambled bytes, the same in every run.
fn scramble(word: &mut u64, bytes: &mut [u8; 48]) {
    for byte in bytes.iter_mut() {
        *word = word.wrapping_mul(6364136223846793005).wrapping_add(1);
        *byte = word.to_be_bytes()[0];
    }
}

#[test]
fn any_bytes_are_heard(rt: HostRuntime) -> Result<(), Fail> {
    let far = Fibre::new(LossyDrop::new(bench(1), 0x5555555555555555), u64::MAX);
    let mut line = Splitter::new(far, bench(2));
    let mut bursts = Vec::with_capacity(rt.alloc(), 54)?;
    let mut word = 1;
    let mut bytes = cell(&OVERHEAD);
    for round in 0..2000 {
        for first in [0, SLOTS - 1] {
            let answer = refusal(line.hear(&bytes, first, &mut bursts));
            assert_eq!(rt; answer, 0, "round {round}, slot {first}");
            bursts.clear();
        }
        scramble(&mut word, &mut bytes);
    }
    Ok(())
}

// Some arms, and one ONU beside them: 27 grants for each of 64 fill the list, and the 65th is dark.
#[test]
fn the_sixty_fifth_is_dark(rt: HostRuntime) -> Result<(), Fail> {
    for (count, last, beside) in [(63, 6, 6), (64, 6, 1), (65, 1, 1)] {
        let mut arms = Vec::new(rt.alloc());
        for number in 0..count {
            arms.push(bench(number))?;
        }
        let mut line = Splitter::new(Star::new(arms), bench(count));
        assert_eq!(rt; line.count(), 64, "{count} arms");
        let mut few = Vec::with_capacity(rt.alloc(), 1727)?;
        assert_eq!(rt; refusal(line.hear(&cell(&MASK), 0, &mut few)), 18);
        let mut bursts = Vec::with_capacity(rt.alloc(), 1728)?;
        for message in [&OVERHEAD, &MASK, &MASK] {
            let answer = refusal(line.hear(&cell(message), SLOTS - 1, &mut bursts));
            assert_eq!(rt; answer, 0, "{count} arms");
        }
        assert_eq!(rt; bursts.len(), 1728);
        let end = bursts.as_slice().last().ok_or("no burst")?;
        assert_eq!(rt; end.start, 448 * (SLOTS + 25) + 1000100);
        assert_eq!(rt; refusal(line.hear(&cell(&MASK), 0, &mut bursts)), 18);
        assert_eq!(rt; bursts.len(), 1728);
        let arm = line.one.arms.as_slice().last().ok_or("no arm")?;
        assert_eq!(rt; arm.look().state.number(), last, "last of {count} arms");
        assert_eq!(rt;
            line.two.look().state.number(),
            beside,
            "beside {count} arms"
        );
    }
    Ok(())
}

// Of a report without bursts; 0 for none.
fn report_refusal(marks: &[u8], report: &mut [u8]) -> u32 {
    match receive(u64::MAX, &[], marks, report) {
        Ok(()) => 0,
        Err(fault) => fault.number(),
    }
}

#[test]
fn reports_of_other_lengths_are_refused(rt: HostRuntime) -> Result<(), Fail> {
    for (marks, size, want) in [
        (53, 954, 0),
        (0, 954, 14),
        (52, 954, 14),
        (54, 954, 14),
        (53, 0, 14),
        (53, 953, 14),
        (53, 955, 14),
        (0, 0, 14),
    ] {
        let heard = vec![in rt.alloc(); 0; marks]?;
        let mut report = vec![in rt.alloc(); 7; size]?;
        let answer = report_refusal(heard.as_slice(), report.as_mut_slice());
        assert_eq!(rt; answer, want, "{marks} marks, {size} bytes");
        let left = if want == 0 { 0 } else { 7 };
        assert!(rt;
            report.as_slice().iter().all(|byte| *byte == left),
            "{marks} marks, {size} bytes"
        );
    }
    Ok(())
}
