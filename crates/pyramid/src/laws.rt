//! What holds of GOPs and plans, each law as the contract of a function that does nothing; `specs/Laws` spells them out.
//! They hold at every depth that has a place table.

ghost use Rattle.pyramid.specs.Laws.{GopReplays, PlanIsPlayable, HeldIsCoded, GopIsMoved, PlanIsMoved, SlotsAreOfTheGop, ShowCommandsShowTheirPositions, GopHides, SettingsHaveATable, SubtypesFollowLevels, ReferencesNamePositions, SettingsSwitchInOrder, FirstEmptyIsNamed, FirstRefusedIsFirst, UnitsMakeThePlan, KnownBeginsThePlan, KnownStays, KnownBeginsLaterPlans, StartsRise, PlacesHaveTheCommands, PlacesFollowTheTable, GuessesReachTheirUnits, SlotsAfterBoth, AcceptsBoth, ShownByBoth, ShowingBoth};

/// Replayed from any eight slots, full or empty, a GOP names no empty slot, and shows its inputs in order, each once.
pub fn gop_replays()
    ensures { GopReplays }
{}

/// Replayed from empty slots, a plan names no empty slot, codes each input once, and shows them in order, each once.
/// So do its first commands, as far as they go. It has at most half as many commands again as inputs.
pub fn plan_is_playable()
    ensures { PlanIsPlayable }
{}

/// From empty slots on, whatever a slot holds was coded before.
pub fn held_is_coded()
    ensures { HeldIsCoded }
{}

/// A GOP is the GOP of its length from input 0 with its inputs moved, and a plan is the join of its GOPs.
pub fn plan_is_closed_over_gops()
    ensures gop { GopIsMoved }
    ensures plan { PlanIsMoved }
{}

/// From a GOP's key on, at each moment of the GOP, every slot holds a frame of the GOP, whatever it held before.
pub fn slots_are_of_the_gop()
    ensures { SlotsAreOfTheGop }
{}

/// A row of the place table that shows what a slot holds, where its position is below the GOP's length, stands in the
/// GOP as a show command behind the commands of the rows before it, and the slot then holds the frame of that position.
pub fn show_commands_show_their_positions()
    ensures { ShowCommandsShowTheirPositions }
{}

/// A GOP hides at most one frame for each two inputs after its key.
pub fn gop_hides()
    ensures { GopHides }
{}

/// When a plan codes a frame other than a key, the slots that it names stand for positions of its GOP, and hold these
/// frames: that of an earlier position, or the last key or switch frame if that is later; that of a later position exactly
/// where the GOP has one.
pub fn references_name_positions()
    ensures { ReferencesNamePositions }
{}

/// Settings give a depth that has a place table, and switch frames only without reordering.
pub fn settings_have_a_table()
    ensures table { SettingsHaveATable }
    ensures switches { SettingsSwitchInOrder }
{}

/// The subtype of a frame's command is 1 more than the frame's level.
pub fn subtypes_follow_levels()
    ensures { SubtypesFollowLevels }
{}

/// A command names only full slots exactly where none is the first empty one that it names, and commands are accepted
/// exactly where none is the first that is refused.
pub fn first_empty_is_named()
    ensures slot { FirstEmptyIsNamed }
    ensures command { FirstRefusedIsFirst }
{}

/// Each GOP starts later than the one before, and before the end.
pub fn starts_rise()
    ensures { StartsRise }
{}

/// The units of a plan, a key or a group each, make the plan, and those that are known begin it.
pub fn known_begins_the_plan()
    ensures units { UnitsMakeThePlan }
    ensures known { KnownBeginsThePlan }
{}

/// What is known stays: it begins what is known and what is planned at every later moment, whatever is accepted since,
/// and whichever of the positions that were undecided are keys then.
pub fn known_stays()
    ensures known { KnownStays }
    ensures planned { KnownBeginsLaterPlans }
{}

/// Places are numbered so that a GOP has one for its key and one for each row of its groups: the known ones have the
/// known commands, and the number of a row's place leads back to the row.
pub fn places_are_numbered()
    ensures commands { PlacesHaveTheCommands }
    ensures table { PlacesFollowTheTable }
{}

/// The walk of a guess ends because it has met the wanted temporal units: its steps suffice, whatever is known.
pub fn guesses_reach_their_units()
    ensures { GuessesReachTheirUnits }
{}

/// Two lists of commands, one behind the other: the slots after both, whether both are accepted, what both show.
pub fn commands_join()
    ensures slots { SlotsAfterBoth }
    ensures accepted { AcceptsBoth }
    ensures shown { ShownByBoth }
    ensures count { ShowingBoth }
{}
