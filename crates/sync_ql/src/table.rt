ghost use Rattle.std.specs.Prelude.{◌≡◌, ◌≢◌, ◌⊎◌, ◌<◌, ◌↔◌, ◌==◌, ◌&&◌, IsSome, IfSome, IsTrue, Any, Some, length, position};
ghost use Rattle.std.specs.Str.{bytes_eq};
ghost use Rattle.sync_ql.specs.declared.levels.Level.{Level};
ghost use Rattle.sync_ql.specs.Table.{not_enhanced, levels_of};
ghost use Rattle.sync_ql.specs.Messages.{is_same_level};
ghost use Rattle.sync_ql.specs.Level.{row_at, row_of, code_of, enhanced_of, name_of, level_at, place_of_codes, place_of_name, level_of_code, level_of_codes, level_of_name, do_not_use_of, do_not_use_name, IsBetter};

use crate::levels::{Level, NetOption};
use crate::rows::{NOT_ENHANCED, Row, rows};

/// The level that a message's four-bit code stands for where no enhanced code stands beside it.
///
/// `None` where the option's table has no such code, as for every code from 16 on. No enhanced
/// level is answered.
/// After G.781, the SSM codes of options I and II.
pub fn level_of_code(option: NetOption, code: u8) -> Option<Level>
    ensures exact { result ≡ level_of_code option code }
    ensures known { IsSome result ↔ Any (λ row. row.code ≡ code) (levels_of option) }
    ensures option { IfSome result (λ level. level.option ≡ option) }
    ensures code { IfSome result (λ level. code_of level ≡ code) }
    ensures alone { IfSome result (λ level. enhanced_of level ≡ not_enhanced) }
{
    let place = place_of_codes(option, code, NOT_ENHANCED)?;
    Some(level_at(option, place))
}

/// The level that a message's four-bit code stands for beside an enhanced code, which a message
/// without one has as ff.
///
/// It is the level with both codes, and without such a level that of the four-bit code alone.
/// `None` where the option's table has no such four-bit code, whatever the enhanced code.
/// The idea of an enhanced code is after G.8264; the codes are this project's own.
pub fn level_of_codes(option: NetOption, code: u8, enhanced: Option<u8>) -> Option<Level>
    ensures exact { result ≡ level_of_codes option code enhanced }
    ensures known { IsSome result ↔ Any (λ row. row.code ≡ code) (levels_of option) }
    ensures option { IfSome result (λ level. level.option ≡ option) }
    ensures code { IfSome result (λ level. code_of level ≡ code) }

    // The level with both codes, if there is one, and else the level that the code names alone.
    ensures both { (level : Level) → level.option ≡ option → code_of level ≡ code →
        enhanced ≡ Some (enhanced_of level) → result ≡ Some level }
    ensures alone { result ≡ level_of_code option code
        ⊎ IfSome result (λ level. enhanced ≡ Some (enhanced_of level)) }
{
    let enhanced = enhanced.unwrap_or(NOT_ENHANCED);
    match place_of_codes(option, code, enhanced) {
        Some(place) => Some(level_at(option, place)),
        None => level_of_code(option, code),
    }
}

/// The four-bit code that messages carry for a level, from 0 to 15.
///
/// After G.781, the SSM codes of options I and II.
pub fn code_of(level: Level) -> u8
    ensures code { result ≡ code_of level }
    ensures four_bits { result < 16 }

    // Both codes name the level, and the four-bit code alone exactly where the other is ff.
    ensures back { level_of_codes level.option result (Some (enhanced_of level)) ≡ Some level }
    ensures alone { (level_of_code level.option result ≡ Some level)
        ↔ (enhanced_of level ≡ not_enhanced) }
{
    row_of(level).code
}

/// The enhanced code that messages carry for a level beside its four-bit code: ff for a level that
/// the four-bit code alone names.
///
/// The idea of an enhanced code is after G.8264; the codes are this project's own.
pub fn enhanced_of(level: Level) -> u8
    ensures enhanced { result ≡ enhanced_of level }
    ensures back { level_of_codes level.option (code_of level) (Some result) ≡ Some level }
{
    row_of(level).enhanced
}

/// The name of a level, as `QL-SSU-A`.
///
/// After G.781, quality level.
pub fn name_of(level: Level) -> &'static str
    ensures name { result.now ≡ name_of level }
    ensures back { level_of_name level.option result.now ≡ Some level }
{
    row_of(level).name
}

/// The level with a name, given as its bytes.
///
/// `None` where the option's table has no such name, in the same letters and case.
/// After G.781, quality level.
pub fn level_of_name(option: NetOption, name: &[u8]) -> Option<Level>
    ensures exact { result ≡ level_of_name option name.now }
    ensures known { IsSome result ↔ Any (λ row. row.name ≡ name.now) (levels_of option) }
    ensures option { IfSome result (λ level. level.option ≡ option) }
    ensures name { IfSome result (λ level. name_of level ≡ name.now) }
{
    let place = place_of_name(option, name)?;
    Some(level_at(option, place))
}

/// The level that says "do not use this signal": QL-DNU in option I, QL-DUS in option II.
///
/// No level of the option is worse.
/// After G.781, do not use and do not use for synchronization.
pub fn do_not_use(option: NetOption) -> Level
    ensures level { result ≡ do_not_use_of option }
    ensures option { result.option ≡ option }
    ensures name { name_of result ≡ do_not_use_name option }
    ensures last { (level : Level) → level.option ≡ option → ¬ IsBetter result level }
{
    level_at(option, rows(option).len() - 1)
}

/// Whether a level is its option's do-not-use level.
///
/// After G.781, do not use and do not use for synchronization.
pub fn is_dnu(level: Level) -> bool
    ensures { IsTrue result ↔ (level ≡ do_not_use_of level.option) }
{
    level == do_not_use(level.option)
}

/// Whether two levels are one row of one option's table.
pub fn is_same_level(one: Level, other: Level) -> bool
    ensures { result ≡ is_same_level (Some one) (Some other) }
{
    one.option == other.option && one.place == other.place
}

/// Whether two levels that may be missing are both missing, or the same.
pub fn is_same_heard(one: Option<Level>, other: Option<Level>) -> bool
    ensures exact { result ≡ is_same_level one other }
    ensures same { IsTrue result → one ≡ other }
{
    match (one, other) {
        (Some(one), Some(other)) => is_same_level(one, other),
        (None, None) => true,
        _ => false,
    }
}

/// Whether a level is better than another of its option: whether it stands earlier in the table.
///
/// After G.781, the order of quality levels; the place of QL-PROV is this project's own.
pub fn better(a: Level, b: Level) -> bool
    requires { a.option ≡ b.option }
    ensures better { IsTrue result ↔ IsBetter a b }

    // Among the levels of one option this is a strict total order.
    ensures one_way { IsBetter a b → ¬ IsBetter b a }
    ensures transitive { (c : Level) → IsBetter a b → IsBetter b c → IsBetter a c }
    ensures total { a ≢ b → IsBetter a b ⊎ IsBetter b a }
{
    a.place < b.place
}

fn row_of(level: Level) -> &'static Row
    ensures code { result.now.code ≡ code_of level }
    ensures enhanced { result.now.enhanced ≡ enhanced_of level }
    ensures name { result.now.name.now ≡ name_of level }
{
    &rows(level.option)[level.place as usize]
}

fn level_at(option: NetOption, place: usize) -> Level
    requires { place < length (levels_of option) }
    ensures level { level_at option place ≡ Some result }
    ensures option { result.option ≡ option }
    ensures row { row_of result ≡ row_at option place }
{
    Level {
        option,
        place: place as u8,
    }
}

fn place_of_codes(option: NetOption, code: u8, enhanced: u8) -> Option<usize>
    ensures place { result ≡ place_of_codes option code enhanced }
    ensures within { IfSome result (λ place. place < length (levels_of option)) }
    ensures code { IfSome result (λ place. (row_at option place).code ≡ code) }
    ensures enhanced { IfSome result (λ place. (row_at option place).enhanced ≡ enhanced) }
{
    row_with_codes(rows(option), code, enhanced)
}

fn place_of_name(option: NetOption, name: &[u8]) -> Option<usize>
    ensures place { result ≡ place_of_name option name.now }
    ensures within { IfSome result (λ place. place < length (levels_of option)) }
    ensures name { IfSome result (λ place. (row_at option place).name ≡ name.now) }
{
    row_with_name(rows(option), name)
}

fn row_with_codes(rows: &[Row], code: u8, enhanced: u8) -> Option<usize>
    ensures { result ≡ position (λ r. r.code == code && r.enhanced == enhanced) rows.now }
{
    rows.iter()
        .position(|row| row.code == code && row.enhanced == enhanced)
}

fn row_with_name(rows: &[Row], name: &[u8]) -> Option<usize>
    ensures { result ≡ position (λ r. bytes_eq r.name.now name.now) rows.now }
{
    rows.iter().position(|row| row.name.as_bytes() == name)
}
