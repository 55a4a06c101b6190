use desk_history::ListOf;
use std::test::Fail;

// A list keeps its items in their order, and gives them back.
#[test]
fn lists(rt: HostRuntime) -> Result<(), Fail> {
    let modifiers = ListOf::new(Vec::from_array(rt.alloc(), *b"AB0")?);
    assert!(rt; modifiers.as_slice() == b"AB0".as_slice());
    assert!(rt; modifiers.into_vec().as_slice() == b"AB0".as_slice());
    assert!(rt;
        ListOf::<u8>::new(Vec::new(rt.alloc()))
            .as_slice()
            .is_empty()
    );
    Ok(())
}
