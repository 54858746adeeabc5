use coding_base::OutOfMemory;
use gop_board::MakeSession;
use script_lines::Script;
use scripted::{ScriptedCoder, ScriptedScales};
use std::alloc::Global;

/// Makes coders and mean scales for the jobs of a script, by its rules. A job's frames are the script's from that on at which the
/// job begins; the numbers of calls that fail are those of each job's own coder.
#[derive(Clone, Copy)]
pub struct ScriptMaker<'a> {
    /// The script.
    pub script: &'a Script,
}

impl MakeSession<u8> for ScriptMaker<'_> {
    ghost use Rattle.session_script.specs.Jobs.{told_ahead};

    ghost told = { λ maker. told_ahead maker.script.now };

    type Scales = ScriptedScales;

    type Coder = ScriptedCoder;

    fn make(
        &self,
        alloc: Global,
        _job: u64,
        first: u64,
    ) -> Result<(ScriptedScales, ScriptedCoder), OutOfMemory> {
        let script = self.script;
        let scales = ScriptedScales::new_from(alloc, first, script.scales.as_slice())?;
        let byte_counts = script.byte_counts.as_slice();
        let faults = script.faults.as_slice();
        let coder = ScriptedCoder::with_rules_from(alloc, first, byte_counts, faults)?;
        Ok((scales, coder))
    }
}
