// A lent spawner is a spawner, too.
use crate::child::{Spawner, StartFault};
use dict_value::Bytes;

impl<S: Spawner> Spawner for &mut S {
    type C = S::C;

    ghost ran = { S.ran };

    ghost started = { λ old words c new. S.started old.now words c new.now };

    ghost scripts = { λ s. S.scripts s.now };

    ghost starts = { λ s. S.starts s.now };

    ghost start_faults = { λ s. S.start_faults s.now };

    fn start(&mut self, words: &[Bytes]) -> Result<S::C, StartFault> {
        (**self).start(words)
    }
}
