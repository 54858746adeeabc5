//! What the jobs of these tests are coded with.
ghost use Rattle.std.specs.Prelude.{None};

use coding_base::OutOfMemory;
use gop_board::MakeSession;
use scripted::ScriptedCoder;
use session_core::NoScale;
use std::alloc::Global;

/// From job number `from` on its coders fail their call number `fails`.
#[derive(Clone, Copy)]
pub struct ScriptedMaker {
    pub from: u64,
    pub fails: u64,
}

/// No job of these tests fails.
pub const SOUND: ScriptedMaker = ScriptedMaker { from: 3, fails: 0 };

impl MakeSession<u8> for ScriptedMaker {
    ghost told = { λ maker job first. record {
      gives = None;
      fails_after = None;
      answers = None;
    } };

    type Scales = NoScale;

    type Coder = ScriptedCoder;

    fn make(
        &self,
        alloc: Global,
        job: u64,
        _first: u64,
    ) -> Result<(NoScale, ScriptedCoder), OutOfMemory> {
        if job < self.from {
            return Ok((NoScale, ScriptedCoder::new(alloc)));
        }
        let coder = ScriptedCoder::with_rules(alloc, &[], &[self.fails])?;
        Ok((NoScale, coder))
    }
}
