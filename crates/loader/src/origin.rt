// Where the entries of a slot of versions come from.
ghost use Rattle.std.specs.Prelude.{ℕ, List, []};

use child_io::Spawner;
use dict_version::Version;
use std::marker::{Brand, PhantomData};
use version_slot::Fact;

/// The folder that the programs of a run lie in, for proofs alone.
pub trait Folder {
    ghost folder: { List ℕ };
}

impl Folder for Brand {
    ghost folder = { [] };
}

/// The fact of a slot of versions, of which no value is made: each entry has the rows that a child gave over the
/// entries before it. The child was started by a spawner of this type, and its program lies in this folder.
pub struct OriginOf<S, F> {
    spawner: PhantomData<S>,
    folder: PhantomData<F>,
}

impl<C, S: Spawner, F: Folder> Fact<Version<C>> for OriginOf<S, F> {
    ghost use Rattle.loader.specs.Origins.{HasOrigin};

    ghost allows = { HasOrigin S.ran F.folder };
}
