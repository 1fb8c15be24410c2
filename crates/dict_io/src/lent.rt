// Lent objects: a lent source is a source, and so on.
use crate::outside::{Clock, Got, Put, Shelf, ShelfFault, Sink, Source};
use dict_value::Bytes;

impl<I: Source> Source for &mut I {
    ghost left = { λ s. I.left s.now };

    ghost read_faults = { λ s. I.read_faults s.now };

    ghost ended = { λ s. I.ended s.now };

    ghost kept_by_read = { λ s. I.kept_by_read s.now };

    fn read(&mut self, buf: &mut [u8]) -> Got {
        (**self).read(buf)
    }
}

impl<O: Sink> Sink for &mut O {
    ghost written = { λ s. O.written s.now };

    ghost write_faults = { λ s. O.write_faults s.now };

    ghost kept_by_write = { λ s. O.kept_by_write s.now };

    fn write(&mut self, piece: &[u8]) -> Put {
        (**self).write(piece)
    }
}

impl<F: Shelf> Shelf for &mut F {
    ghost Readings = { F.Readings };

    ghost readings = { λ s. F.readings s.now };

    ghost file = { F.file };

    ghost later = { F.later };

    ghost filed = { F.filed };

    ghost shelf_faults = { λ s. F.shelf_faults s.now };

    fn read_file(&mut self, name: &str, limit: u32) -> Result<Bytes, ShelfFault> {
        (**self).read_file(name, limit)
    }
}

impl<K: Clock> Clock for &mut K {
    ghost moments = { λ s. K.moments s.now };

    ghost taken = { λ s. K.taken s.now };

    fn now(&mut self) -> u64 {
        (**self).now()
    }
}
