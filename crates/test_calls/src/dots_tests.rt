use std::alloc::AllocError;
use tsd_base::dots::Dots;

#[test]
fn dots_stand_in_order(rt: HostRuntime) -> Result<(), AllocError> {
    let mut dots = Dots::make(rt.alloc());
    dots.push(1, -5)?;
    dots.push(7, 0)?;
    assert!(rt; dots.list() == [(1, -5), (7, 0)].as_slice());
    let mut later = Dots::make(rt.alloc());
    later.push(8, 3)?;
    dots.append(&later)?;
    assert!(rt; dots.list() == [(1, -5), (7, 0), (8, 3)].as_slice());
    Ok(())
}
