//! Sources whose bytes are kept.
ghost use Rattle.std.specs.Prelude.{◌≡◌, [], Some, IfOk, OnErr, option_map};
ghost use Rattle.std.specs.Io.{ReadsAtMost};
ghost use Rattle.std.specs.Io.KnownBytes.{ReadConsumes};
ghost use Rattle.poets_io.specs.Causes.{HasCause};
ghost use Rattle.poets_mark.specs.Keeping.{IsKept, IsKeptOf};

use poets_io::{Failed, Source};
use std::alloc::Global;
use std::marker::Model;

/// A source that keeps what it gave, as long as memory is found for it.
#[derive(Drop)]
pub struct KeptSource<S: Source> {
    source: S,
    // `None` once memory ran out.
    given: Option<Vec<u8>>,
}

impl<S: Source> Model for KeptSource<S> {
    ghost use Rattle.std.specs.Prelude.{option_map};
    ghost use Rattle.poets_mark.specs.Keeping.{KeptView};

    ghost Value = { KeptView };

    ghost view = { λ s. record {
      left = S.left s.source;
      faults = S.faults s.source;
      given = option_map (λ given. given.items) s.given;
    } };
}

impl<S: Source> KeptSource<S> {
    /// The same source, of which nothing was read yet.
    pub fn new(alloc: Global, source: S) -> KeptSource<S>
        ensures left { result.left ≡ S.left source }
        ensures faults { result.faults ≡ S.faults source }
        ensures given { result.given ≡ Some [] }
    {
        KeptSource {
            source,
            given: Some(Vec::new(alloc)),
        }
    }

    /// All that it gave, if memory was found for it.
    pub fn given(&self) -> Option<&[u8]>
        ensures { option_map (λ given. given.now) result ≡ self.now.given }
    {
        match &self.given {
            Some(given) => Some(given.as_slice()),
            None => None,
        }
    }

    // Keeps what was read. Once memory runs out, nothing is kept.
    fn keep(&mut self, bytes: &[u8])
        ensures left { self.new.left ≡ self.old.left }
        ensures faults { self.new.faults ≡ self.old.faults }
        ensures given { IsKept self.old.given bytes.now self.new.given }
    {
        if let Some(given) = &mut self.given {
            if given.extend_from_slice(bytes).is_err() {
                self.given = None;
            }
        }
    }
}

impl<S: Source> Source for KeptSource<S> {
    ghost left = { λ s. s.left };

    ghost faults = { λ s. s.faults };

    fn read(&mut self, buf: &mut [u8]) -> Result<usize, Failed>
        ensures bound { ReadsAtMost result buf.new }
        ensures bytes { ReadConsumes self.old.left self.new.left result buf.new }
        ensures cause { HasCause self.old.faults self.new.faults result }
        ensures given { IfOk result (IsKeptOf self.old.given buf.new self.new.given) }
        ensures same { OnErr result (self.new.given ≡ self.old.given) }
    {
        let count = self.source.read(buf)?;
        self.keep(&buf[..count]);
        Ok(count)
    }
}
