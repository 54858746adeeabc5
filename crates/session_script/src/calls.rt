ghost use Rattle.std.specs.Prelude.{◌≡◌, ◌≤◌, ◌++◌, map, flat_map, count_by, replicate, IfOk, OnOk, IfSome, IsTrue};
ghost use Rattle.std.specs.List.{list_all};
ghost use Rattle.script_lines.specs.Grammar.{is_act};
ghost use Rattle.session_script.specs.Calls.{asked_by, asked_for, asked_for_passes, asked_in_any, asked_in_passes, own_picture, plain_picture};
ghost use Rattle.session_script.specs.Jobs.{is_send};

use av1_frame::{ChromaSampling, Frame};
use av1_settings::EncoderConfig;
use coding_base::OutOfMemory;
use script_lines::{Action, ScriptCall};
use session_core::{Call, FrameParameters, FrameTypeOverride, PassCall, T35List};
use std::alloc::Global;
use std::sync::Arc;

/// A picture that frames share.
pub type Picture = Arc<Frame<u8>>;

/// The calls that a script asks for in one pass, none of which gives pass data. Its plain frames share one picture of the settings'
/// size, which is made for the first of them; a frame of another size has a picture of its own, with the settings' sampling of chroma.
pub fn session_calls(
    alloc: Global,
    enc: &EncoderConfig,
    asked: &[ScriptCall],
) -> Result<Vec<Call<u8, u64>>, OutOfMemory>
    requires wide { enc.now.width ≤ 65535 }
    requires high { enc.now.height ≤ 65535 }
    requires acts { IsTrue (list_all is_act asked.now) }
    ensures { IfOk result (λ calls.
        map asked_by calls.items ≡ map (asked_for enc.now) asked.now) }
{
    let mut picture = None;
    let mut calls = Vec::new(alloc);
    for call in asked {
        let ScriptCall::Act(action) = call else {
            unreachable!()
        };
        calls.push(session_call(alloc, enc, *action, &mut picture)?)?;
    }
    Ok(calls)
}

/// The calls that a script asks for in two passes. Where pass data is asked for, it is taken behind each receive. The pictures are
/// those of [`session_calls`].
pub fn pass_calls(
    alloc: Global,
    enc: &EncoderConfig,
    asked: &[ScriptCall],
    takes: bool,
) -> Result<Vec<PassCall<u8, u64>>, OutOfMemory>
    requires wide { enc.now.width ≤ 65535 }
    requires high { enc.now.height ≤ 65535 }
    ensures { IfOk result (λ calls.
        map asked_in_passes calls.items ≡ flat_map (asked_for_passes takes enc.now) asked.now) }
{
    let mut picture = None;
    let mut calls = Vec::new(alloc);
    for call in asked {
        push_pass_calls(alloc, enc, call, takes, &mut picture, &mut calls)?;
    }
    Ok(calls)
}

fn push_pass_calls(
    alloc: Global,
    enc: &EncoderConfig,
    call: &ScriptCall,
    takes: bool,
    picture: &mut Option<Picture>,
    calls: &mut Vec<PassCall<u8, u64>>,
) -> Result<(), OutOfMemory>
    requires wide { enc.now.width ≤ 65535 }
    requires high { enc.now.height ≤ 65535 }
    requires made { IfSome picture.old (λ made. made.value ≡ own_picture enc.now) }
    ensures calls { OnOk result (map asked_in_passes calls.new.items
        ≡ map asked_in_passes calls.old.items ++ asked_for_passes takes enc.now call.now) }
    ensures made { IfSome picture.new (λ made. made.value ≡ own_picture enc.now) }
{
    match call {
        ScriptCall::Act(action) => {
            let call = session_call(alloc, enc, *action, picture)?;
            calls.push(PassCall::Call(call))?;
            if takes && matches!(action, Action::Receive) {
                calls.push(PassCall::Take)?;
            }
        }
        ScriptCall::Give(message) => calls.push(PassCall::Give(message.clone()?))?,
    }
    Ok(())
}

fn session_call(
    alloc: Global,
    enc: &EncoderConfig,
    action: Action,
    picture: &mut Option<Picture>,
) -> Result<Call<u8, u64>, OutOfMemory>
    requires wide { enc.now.width ≤ 65535 }
    requires high { enc.now.height ≤ 65535 }
    requires made { IfSome picture.old (λ made. made.value ≡ own_picture enc.now) }
    ensures call { IfOk result (λ call. asked_by call ≡ asked_in_any enc.now action) }
    ensures made { IfSome picture.new (λ made. made.value ≡ own_picture enc.now) }
{
    match action {
        Action::Send => Ok(Call::Send(shared_picture(alloc, enc, picture)?, None)),
        Action::SendKey => Ok(Call::Send(
            shared_picture(alloc, enc, picture)?,
            Some(FrameParameters {
                frame_type_override: FrameTypeOverride::Key,
                opaque: None,
                t35_metadata: T35List::new(alloc),
            }),
        )),
        Action::SendSize { width, height } => {
            let (width, height) = (width as usize, height as usize);
            let picture = plain_picture(alloc, width, height, enc.chroma_sampling)?;
            Ok(Call::Send(picture, None))
        }
        Action::SendOpaque(value) => Ok(Call::Send(
            shared_picture(alloc, enc, picture)?,
            Some(FrameParameters {
                frame_type_override: FrameTypeOverride::No,
                opaque: Some(value),
                t35_metadata: T35List::new(alloc),
            }),
        )),
        Action::Flush => Ok(Call::Flush),
        Action::Receive => Ok(Call::Receive),
    }
}

/// The frames that a script sends, all of them one picture of the settings' size, which is made for the first.
pub fn sent_frames(
    alloc: Global,
    enc: &EncoderConfig,
    asked: &[ScriptCall],
) -> Result<Vec<Picture>, OutOfMemory>
    requires wide { enc.now.width ≤ 65535 }
    requires high { enc.now.height ≤ 65535 }
    ensures { IfOk result (λ frames. map (λ frame. frame.value) frames.items
        ≡ replicate (count_by is_send asked.now) (own_picture enc.now)) }
{
    let mut picture = None;
    let mut frames = Vec::new(alloc);
    for _ in 0..sends(asked) {
        frames.push(shared_picture(alloc, enc, &mut picture)?)?;
    }
    Ok(frames)
}

// How many frames are sent.
fn sends(asked: &[ScriptCall]) -> usize
    ensures { result ≡ count_by is_send asked.now }
{
    asked
        .iter()
        .filter(|call| matches!(call, ScriptCall::Act(Action::Send)))
        .count()
}

// The picture that plain frames share, which is made where there is none yet.
fn shared_picture(
    alloc: Global,
    enc: &EncoderConfig,
    picture: &mut Option<Picture>,
) -> Result<Picture, OutOfMemory>
    requires wide { enc.now.width ≤ 65535 }
    requires high { enc.now.height ≤ 65535 }
    requires made { IfSome picture.old (λ made. made.value ≡ own_picture enc.now) }
    ensures shared { IfOk result (λ shared. shared.value ≡ own_picture enc.now) }
    ensures made { IfSome picture.new (λ made. made.value ≡ own_picture enc.now) }
{
    if let Some(made) = picture {
        return Ok(made.clone()?);
    }
    let made = plain_picture(alloc, enc.width, enc.height, enc.chroma_sampling)?;
    *picture = Some(made.clone()?);
    Ok(made)
}

fn plain_picture(
    alloc: Global,
    width: usize,
    height: usize,
    sampling: ChromaSampling,
) -> Result<Picture, OutOfMemory>
    requires wide { width ≤ 65535 }
    requires high { height ≤ 65535 }
    ensures { IfOk result (λ made. made.value ≡ plain_picture width height sampling) }
{
    let frame = Frame::new(alloc, width, height, sampling)?;
    Ok(Arc::new(alloc, frame)?)
}
