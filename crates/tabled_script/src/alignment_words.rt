//! How columns are aligned, in words: letters, or rules between commas.

ghost use Rattle.std.specs.List.{slice_split};
ghost use Rattle.std.specs.Option.{option_map};
ghost use Rattle.std.specs.Prelude.{◌≡◌, IfOk, map};
ghost use Rattle.tabled_script.specs.Aligners.{aligner, aligner_of, alignment_of, each_of, is_comma, rule_in, rule_of, sole_alignment};

use crate::alignments::{AlignmentRule, Alignments};
use std::alloc::{AllocError, Global};
use tabled_draw::Alignment;

/// How a value aligns columns: by a letter for each place, or by rules between commas.
pub(crate) fn aligner_of(alloc: Global, value: &str) -> Result<Option<Alignments>, AllocError>
    ensures { IfOk result (λ alignments. option_map aligner alignments ≡ aligner_of value.now) }
{
    if let Some(list) = alignments_of(alloc, value.as_bytes())? {
        return Ok(Some(Alignments::Places(list)));
    }
    match rules_of(alloc, value)? {
        Some(rules) => Ok(Some(Alignments::Rules(rules))),
        None => Ok(None),
    }
}

/// The alignments of letters, if each has one.
fn alignments_of(alloc: Global, letters: &[u8]) -> Result<Option<Vec<Alignment>>, AllocError>
    ensures { IfOk result (λ alignments. option_map (λ list. list.items) alignments ≡ each_of alignment_of letters.now) }
{
    let mut alignments = Vec::new(alloc);
    for letter in letters {
        let Some(alignment) = alignment_of(*letter) else {
            return Ok(None);
        };
        alignments.push(alignment)?;
    }
    Ok(Some(alignments))
}

fn alignment_of(letter: u8) -> Option<Alignment>
    ensures { result ≡ alignment_of letter }
{
    match letter {
        b'l' => Some(Alignment::left()),
        b'c' => Some(Alignment::center()),
        b'r' => Some(Alignment::right()),
        _ => None,
    }
}

/// The rules between commas, if each is one.
fn rules_of(alloc: Global, value: &str) -> Result<Option<Vec<AlignmentRule>>, AllocError>
    ensures { IfOk result (λ rules. option_map (λ list. map rule_in list.items) rules ≡ each_of rule_of (slice_split is_comma value.now)) }
{
    let mut rules = Vec::new(alloc);
    for part in value.split(',') {
        let Some(rule) = rule_of(alloc, part)? else {
            return Ok(None);
        };
        rules.push(rule)?;
    }
    Ok(Some(rules))
}

/// The rule that is told, if it is one: `auto`, or a name, an equals sign and a letter.
fn rule_of(alloc: Global, part: &str) -> Result<Option<AlignmentRule>, AllocError>
    ensures { IfOk result (λ rule. option_map rule_in rule ≡ rule_of part.now) }
{
    if part == "auto" {
        return Ok(Some(AlignmentRule::Numbers));
    }
    let Some((name, letters)) = part.split_once('=') else {
        return Ok(None);
    };
    let Some(alignment) = sole_alignment(letters) else {
        return Ok(None);
    };
    Ok(Some(AlignmentRule::Name(String::from_str(alloc, name)?, alignment)))
}

/// The alignment of a text that is one letter.
fn sole_alignment(letters: &str) -> Option<Alignment>
    ensures { result ≡ sole_alignment letters.now }
{
    match letters.as_bytes() {
        [letter] => alignment_of(*letter),
        _ => None,
    }
}
