// Documents of rings.
use cli_ring::make_demo;
use examples_texts::ring;
use std::test::Fail;

/// The ring of two places.
const RING_OF_TWO: &str = ring!("1");

#[test]
fn bytes_of_rings(rt: HostRuntime) -> Result<(), Fail> {
    let two = make_demo(rt.alloc(), 2)?;
    assert_eq!(rt;
        String::from_utf8_lossy(rt.alloc(), &two)?.as_str(),
        RING_OF_TWO
    );
    assert_eq!(rt; make_demo(rt.alloc(), 10)?.len(), 472);
    assert_eq!(rt; make_demo(rt.alloc(), 11)?.len(), 480);
    Ok(())
}
