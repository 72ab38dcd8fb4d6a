// A line that is not as it was at first.
use bench::bench_onu::BenchOnu;
use driver::driven::Line;
use field::number::SerialNumber;
use star::Star;
use std::test::Fail;

// Room for the bursts of an ONU that came later is made when a frame goes out.
#[test]
fn a_line_may_grow(rt: HostRuntime) -> Result<(), Fail> {
    let mut line = Line::new(rt.alloc(), Star::new(Vec::new(rt.alloc())))?;
    let onu = BenchOnu::new(SerialNumber::saturating(1), u64::MAX);
    line.plant_mut().arms.push(onu)?;
    match line.send(&mut [0; 96]) {
        Ok(docket) => {
            line.settle(docket, &[0; 53]).unwrap();
            Ok(())
        }
        Err(_) => Err("no room".into()),
    }
}
