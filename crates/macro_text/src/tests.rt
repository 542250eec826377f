use crate::blocks;
use action_table::Action;
use std::test::Fail;

#[test]
fn cuts_into_blocks(rt: HostRuntime) -> Result<(), Fail> {
    let alloc = rt.alloc();
    assert_eq!(rt; blocks(alloc, &[])?.len(), 0);
    assert_eq!(rt; blocks(alloc, &[Action::Observe; 15])?.len(), 353);
    let text = blocks(alloc, &[Action::Observe; 16])?;
    assert_eq!(rt; text.len(), 384);
    let end = b"macro 2\n/ac \"Observe\" <wait.3>\n";
    assert!(rt; text.ends_with(end));
    Ok(())
}

#[test]
fn writes_each_action(rt: HostRuntime) -> Result<(), Fail> {
    let actions = [
        Action::Innovation,
        Action::MastersMend,
        Action::WasteNotII,
        Action::BasicSynthesis,
    ];
    let text = blocks(rt.alloc(), &actions)?;
    let wanted =
        b"macro 1\n/ac \"Innovation\" <wait.2>\n/ac \"Master's Mend\" <wait.3>\n/ac \"Waste Not II\" <wait.2>\n/ac \"Basic Synthesis\" <wait.3>\n";
    assert!(rt; text.as_slice() == wanted.as_slice());
    Ok(())
}
