use crate::{Done, Errand, run};
use measure::by_length::Length;
use std::test::Fail;

const SMALL: &str = "01010002FC\n0200000001001E00DF\n050000FB\n7F00037E\n";

#[test]
fn a_file_comes_back(rt: HostRuntime) -> Result<(), Fail> {
    let heap = rt.alloc();
    let mut errands = Vec::new(heap);
    errands.push(Errand::Load(SMALL.as_bytes().to_vec(heap)?))?;
    errands.push(Errand::Write(vec![in heap; 7u8; 50]?))?;
    let answers = run(heap, Length, errands.as_mut_slice())?;
    assert_eq!(rt; answers.len(), 2);
    assert_eq!(rt; answers[0], Ok(Done::Loaded { marks: 2, legs: 1 }));
    assert_eq!(rt; answers[1], Ok(Done::Written(48)));
    assert_eq!(rt; errands.len(), 2);
    let Errand::Write(buffer) = &errands[1] else {
        return Err(Fail::new("another errand"));
    };
    assert_eq!(rt; buffer.len(), 50);
    assert!(rt; &buffer.as_slice()[0..48] == SMALL.as_bytes());
    assert!(rt; &buffer.as_slice()[48..50] == [7u8; 2].as_slice());
    Ok(())
}
