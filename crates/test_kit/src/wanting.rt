//! Calls that want memory, with each growth refused in turn; and then the same call with memory.
use refusing::Refusing;
use std::alloc::Global;
use std::test::Fail;

/// A call that wants memory.
pub trait Wanting {
    /// Whether it answers as its example says, or `None` where it wants memory. Its own memory
    /// comes from `refusing`; what it is given stands in memory of `global`.
    fn answer(&self, global: Global, refusing: &Refusing<Global>) -> Result<Option<bool>, Fail>;
}

/// How many growths a call takes, where each that is refused is told, and the same call is answered
/// then; `None` where it isn't so.
pub fn growths<C: Wanting>(global: Global, call: &C) -> Result<Option<u64>, Fail> {
    let refusing = Refusing::new(global, 0);
    for nth in 1..1000u64 {
        refusing.refuse(nth);
        let answer = call.answer(global, &refusing)?;
        if !refusing.was_met() {
            return Ok(if answer == Some(true) {
                Some(nth - 1)
            } else {
                None
            });
        }
        refusing.refuse(0);
        if answer.is_some() || call.answer(global, &refusing)? != Some(true) {
            return Ok(None);
        }
    }
    Ok(None)
}

/// Whether it is so, and the call takes `least` growths or more, so that none went untried.
pub fn grows<C: Wanting>(global: Global, call: &C, least: u64) -> Result<bool, Fail> {
    Ok(match growths(global, call)? {
        Some(taken) => least <= taken,
        None => false,
    })
}
