//! What `nobj spaces` plays.

ghost use Rattle.std.specs.Prelude.{◌≡◌};
ghost use Rattle.nob_demo_spaces.specs.Scenes.{IsBetween, CanBePlayed, most_calls, most_spaces};

use nob_nodes::Keep;
use std::marker::Model;

/// A scene of spaces in threads of one process, of which the first exports a counter that the
/// others call over links that lose frames. Contracts see its numbers.
#[derive(Clone, Copy, Debug, PartialEq, Eq)]
pub struct Scene {
    spaces: u8,
    workers: u8,
    calls: u32,
    loss: u8,
    seed: u64,
    traces: bool,
    keep: Keep,
}

impl Model for Scene {
    ghost use Rattle.nob_demo_spaces.specs.Scenes.{Setting, CanBePlayed};

    ghost Value = { Setting };

    ghost view = { λ s. record {
      spaces = s.spaces;
      workers = s.workers;
      calls = s.calls;
      loss = s.loss;
      seed = s.seed;
      traces = s.traces;
      keep = s.keep;
    } };

    ghost invariant = { λ s. CanBePlayed s.keep s.spaces s.workers s.calls s.loss };

    ghost inverse = { λ s. record {
      spaces = s.spaces;
      workers = s.workers;
      calls = s.calls;
      loss = s.loss;
      seed = s.seed;
      traces = s.traces;
      keep = s.keep;
    } };
}

impl Scene {
    /// The scene of these numbers.
    pub(crate) fn new(
        spaces: u8,
        workers: u8,
        calls: u32,
        loss: u8,
        seed: u64,
        traces: bool,
        keep: Keep,
    ) -> Scene
        requires { CanBePlayed keep spaces workers calls loss }
        ensures { result ≡ record {
          spaces = spaces;
          workers = workers;
          calls = calls;
          loss = loss;
          seed = seed;
          traces = traces;
          keep = keep;
        } }
    {
        Scene {
            spaces,
            workers,
            calls,
            loss,
            seed,
            traces,
            keep,
        }
    }

    /// How many spaces there are.
    pub fn spaces(self) -> u8
        ensures value { result ≡ self.spaces }
        ensures range { IsBetween 2 (most_spaces self.keep) result }
    {
        self.spaces
    }

    /// How many workers each space has.
    pub fn workers(self) -> u8
        ensures value { result ≡ self.workers }
        ensures range { IsBetween 1 16 result }
    {
        self.workers
    }

    /// How many calls are made in all.
    pub fn calls(self) -> u32
        ensures value { result ≡ self.calls }
        ensures range { IsBetween 0 (most_calls self.keep) result }
    {
        self.calls
    }

    /// How many frames of ten a link loses.
    pub fn loss(self) -> u8
        ensures value { result ≡ self.loss }
        ensures range { IsBetween 0 9 result }
    {
        self.loss
    }

    /// Where the chances of the links start.
    pub fn seed(self) -> u64
        ensures { result ≡ self.seed }
    {
        self.seed
    }

    /// Whether the chains are printed.
    pub fn traces(self) -> bool
        ensures { result ≡ self.traces }
    {
        self.traces
    }

    /// What the nodes keep of their entries.
    pub fn keep(self) -> Keep
        ensures { result ≡ self.keep }
    {
        self.keep
    }
}
