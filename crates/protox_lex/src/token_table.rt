//! The table of a source: its tokens, and the comments and newlines before each of them.
ghost use Rattle.std.specs.Prelude.{◌≡◌, ◌≤◌, ◌↔◌, IsTrue, ◌++◌, [], length, map, slice_get, slice_index_or, OnOk, OnErr, IfOk, IfSome, IsOk};
ghost use Rattle.std.specs.List.{All};
ghost use Rattle.std.specs.Option.{option_map};
ghost use Rattle.protox_fault.specs.Faults.{faults_in};
ghost use Rattle.protox_lexeme.specs.Gaps.{IsGap};
ghost use Rattle.protox_lexeme.specs.Lexemes as spec;
ghost use Rattle.protox_lexeme.specs.Table.{table_of};
ghost use Rattle.protox_lexeme.specs.TokenClass.{class};
ghost use Rattle.std.specs.Str.{IsCharBoundary};
ghost use Rattle.protox_lex.specs.Parts.{IsPart, IsReach, IsReachOrRest};
ghost use Rattle.protox_lex.specs.TableView.{shape_of_lent, borrowed_of_lent, shapes_of_lent};
ghost use Rattle.protox_lexeme.specs.Tokens.{shape_of};

use crate::late_groups::LateGroups;
use crate::shared_gaps::SharedGaps;
use crate::shared_rows::SharedRows;
use crate::table_draft::{TableDraft, ended_draft};
use protox_fault::error::{ParseErrorKind, Span};
use protox_lexeme::fault_list::tell;
use protox_lexeme::lexeme_fault::LexemeFault;
use protox_lexeme::token::Token;
use std::alloc::{AllocError, Global};
use std::marker::Model;

/// The rows of a source and the gaps between them. It borrows the source.
#[derive(Drop)]
pub struct TokenTable<'a> {
    rows: SharedRows<'a>,
    gaps: SharedGaps<'a>,
    faults: LateGroups<LexemeFault>,
}

impl<'a> Model for TokenTable<'a> {
    ghost use Rattle.protox_lexeme.specs.Table.{Table};

    ghost Value = { Table };

    ghost use Rattle.protox_lex.specs.TableView.{table_seen};

    ghost view = { table_seen };

    ghost use Rattle.protox_lexeme.specs.Gaps.{HoldGaps};

    ghost invariant = { λ t. HoldGaps (table_seen t).gaps };
}

impl<'a> TokenTable<'a> {
    /// The table of a source of any length, or `AllocError` if memory runs out.
    pub fn new(alloc: Global, source: &'a str) -> Result<TokenTable<'a>, AllocError>
        ensures { IfOk result (λ table. table ≡ table_of (spec.cut 0 source.entry.now)) }
    {
        let (table, _) = TokenTable::part(alloc, source, 0, source.len())?;
        Ok(table)
    }

    /// The table of a part of a source: of the lexemes that stand between `from` and `until`, with
    /// the whole of the last one. Answers where they end too. Or `AllocError` if memory runs out.
    ///
    /// Both are byte offsets in the source, and a lexeme begins at `from`, or a blank. Blanks between
    /// lexemes are skipped. Where only blanks are left, the part ends at the end of the source. The
    /// last row doesn't know what comes behind the part.
    #[tactic(auto, using(crate::proofs::Tables::gaps_held))]
    pub fn part(
        alloc: Global,
        source: &'a str,
        from: usize,
        until: usize,
    ) -> Result<(TokenTable<'a>, usize), AllocError>
        requires fits { until ≤ length source.now }
        requires order { from ≤ until }
        requires boundary { IsCharBoundary source.now from }
        ensures part { IfOk result (λ part. IsPart source.entry.now from part.0 part.1) }
        // Each lexeme but the last stops before `until`, and the part ends with the last one.
        ensures reach { IfOk result (λ part. IsReach source.entry.now from until part.1) }
        ensures past { IfOk result (λ part. until ≤ part.1) }
    {
        let (TableDraft { rows, gaps, faults }, end) = ended_draft(
            alloc,
            source,
            from,
            until,
            source.len(),
        )?;
        Ok((TokenTable { rows, gaps, faults }, end))
    }

    /// The table of a part of a source, and where the part ends, as `part` gives them. But if the
    /// last lexeme ends more than `long` bytes behind `until`, all lexemes up to the end of the
    /// source come with it. So a caller who then wants the whole rest doesn't cut a long comment
    /// twice. Or `AllocError` if memory runs out.
    ///
    /// As in `part`, both places are byte offsets in the source, and a lexeme begins at `from`, or
    /// a blank.
    #[tactic(auto, using(crate::proofs::Tables::gaps_held))]
    pub fn part_or_rest(
        alloc: Global,
        source: &'a str,
        from: usize,
        until: usize,
        long: usize,
    ) -> Result<(TokenTable<'a>, usize), AllocError>
        requires fits { until ≤ length source.now }
        requires order { from ≤ until }
        requires boundary { IsCharBoundary source.now from }
        ensures part { IfOk result (λ part. IsPart source.entry.now from part.0 part.1) }
        // The part ends as `part` ends it, or at the end of the source.
        ensures reach { IfOk result (λ part. IsReachOrRest source.entry.now from until long part.1) }
        ensures past { IfOk result (λ part. until ≤ part.1) }
    {
        let (TableDraft { rows, gaps, faults }, end) = ended_draft(
            alloc, source, from, until, long,
        )?;
        Ok((TokenTable { rows, gaps, faults }, end))
    }

    /// The number of rows.
    pub fn rows(&self) -> usize
        ensures { result ≡ length self.now.rows }
    {
        self.rows.len()
    }

    /// The token of row `k`, counted from 0, or `Err(())` for an invalid one. None from `rows()`
    /// on.
    pub fn row(&self, k: usize) -> Option<Result<&Token<'a>, ()>>
        ensures value { option_map shape_of_lent result ≡ option_map (λ row. row.shape) (slice_get self.now.rows k) }
        ensures borrowed { option_map borrowed_of_lent result ≡ slice_get self.now.borrowed k }
    {
        self.rows.token(k)
    }

    /// The class of row `k`: a constant of `protox_lexeme::class`. None from `rows()` on.
    pub fn class(&self, k: usize) -> Option<u8>
        ensures { result ≡ option_map (λ row. class row.shape) (slice_get self.now.rows k) }
    {
        self.rows.class(k)
    }

    /// The span of row `k`, in byte offsets. None from `rows()` on.
    pub fn span(&self, k: usize) -> Option<Span>
        ensures { result ≡ option_map (λ row. row.at) (slice_get self.now.rows k) }
    {
        self.rows.span(k)
    }

    /// The comments and newlines before row `k`; at `rows()` those before the end of the source.
    /// None after that.
    pub fn gap(&self, k: usize) -> Option<&[Token<'a>]>
        ensures value { option_map shapes_of_lent result ≡ slice_get self.now.gaps k }
        ensures gap { IfSome result (λ gap. IsGap (map shape_of gap.now)) }
    {
        self.gaps.get(k)
    }

    /// Whether no row and no gap has a fault, whether in text format or not. Then `release` never
    /// appends anything.
    pub fn is_faultless(&self) -> bool
        ensures { IsTrue result ↔ All (λ faults. faults ≡ []) self.now.faults }
    {
        self.faults.are_empty()
    }

    #[tactic(auto, using(crate::proofs::Tables::nothing_released))]
    /// Appends the faults of gap `k` and then those of row `k`. In text format a `#` comment and a
    /// float suffix are none. After `rows()` there are no faults. On `AllocError` the list is
    /// unchanged.
    pub fn release(
        &self,
        alloc: Global,
        k: usize,
        text_format: bool,
        errors: &mut Vec<ParseErrorKind>,
    ) -> Result<(), AllocError>
        ensures ok { OnOk result (errors.new.items ≡ errors.old.items ++ faults_in text_format (slice_index_or self.now.faults k [])) }
        ensures err { OnErr result (errors.new.items ≡ errors.old.items) }
        ensures free { faults_in text_format (slice_index_or self.now.faults k []) ≡ [] → IsOk result }
    {
        match self.faults.get(k) {
            Some(faults) => tell(alloc, errors, faults, text_format),
            None => Ok(()),
        }
    }
}
