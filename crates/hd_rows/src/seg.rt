use hd_model::{Grown, Kind, Memory};
use hd_seg::Seg;

#[test]
fn one_block_is_too_few_for_extras(rt: HostRuntime) -> Result<(), Memory> {
    let mut seg = Seg::open(rt.alloc(), 1)?;
    assert!(rt; matches!(seg.give_block(Kind::Dependent), Err(full) if full.given == 0));
    assert!(rt; matches!(seg.give_block(Kind::Short), Ok(Grown::One(1))));
    assert!(rt; matches!(seg.give_block(Kind::Short), Err(full) if full.given == 1));
    Ok(())
}
