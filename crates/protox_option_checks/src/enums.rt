//! What is wrong with an enum.

ghost use Rattle.std.specs.Prelude.{◌≡◌, ◌++◌, ◌∷◌, [], map, IfOk, IsTrue, OnOk};
ghost use Rattle.protox_option_checks.specs.Parts as words;
ghost use Rattle.protox_option_checks.specs.inner.Rising.{AreRising};

use crate::adding::{add, path_to};
use crate::names::{outer_scope, value_number};
use crate::site::Site;
use crate::statements::is_true;
use crate::{CheckFault, CheckFaultKind};
use protox_descriptor::descriptor::{
    EnumDescriptorProto, EnumValueDescriptorProto, UninterpretedOption,
};
use protox_descriptor::tag::enum_::VALUE;
use protox_descriptor::tag::enum_value::NUMBER;
use protox_descriptor::uninterpreted::HasUninterpreted;
use protox_numbers::{Clash, single, with_earlier};
use protox_spans::{Span, first_met};
use std::alloc::{AllocError, Global};

fn statements_of_enum(of: &EnumDescriptorProto) -> &[UninterpretedOption]
    ensures { result.now ≡ words.statements_of_enum of.now }
{
    match &of.options {
        Some(options) => options.uninterpreted(),
        None => &[],
    }
}

// The number of each value, as a span.
fn spans_of(alloc: Global, values: &[EnumValueDescriptorProto]) -> Result<Vec<Span>, AllocError>
    ensures { IfOk result (λ made. made.items ≡ words.spans_of values.now) }
{
    let mut made = Vec::with_capacity(alloc, values.len())?;
    for value in values {
        made.push(single(value.number))?;
    }
    Ok(made)
}

// Whether each of these spans begins where the one before it ends, or behind.
fn are_rising(spans: &[Span]) -> bool
    ensures { IsTrue result → AreRising spans.now }
{
    let mut least = 0;
    for span in spans {
        if span.start < least || span.end < span.start {
            return false;
        }
        least = span.end;
    }
    true
}

// Each value whose number an earlier one has, with the first that has it.
fn shared_numbers(
    alloc: Global,
    values: &[EnumValueDescriptorProto],
) -> Result<Vec<Clash>, AllocError>
    ensures { IfOk result (λ made. made.items ≡ words.shared_numbers values.now) }
{
    let spans = spans_of(alloc, values)?;
    // in most enums the numbers rise
    if are_rising(spans.as_slice()) {
        return Ok(Vec::new(alloc));
    }
    let met = first_met(alloc, spans.as_slice(), spans.as_slice())?;
    with_earlier(alloc, met.as_slice())
}

// The values of an enum, and the scope that they stand in.
#[derive(Clone, Copy)]
struct Values<'a> {
    scope: &'a str,
    values: &'a [EnumValueDescriptorProto],
}

impl Site<'_> {
    // Adds the fault of a value.
    fn add_shared(
        &self,
        path: &[i32],
        of: &Values<'_>,
        clash: Clash,
        faults: &mut Vec<CheckFault>,
    ) -> Result<(), AllocError>
        ensures { OnOk result (faults.new.items ≡ faults.old.items ++ words.shared_number_at
            self.now.symbols.now self.now.number path.now of.now.scope.now of.now.values.now
            clash ∷ []) }
    {
        let place = path_to(self.alloc, path, VALUE, clash.part)?;
        let value = value_number(self.symbols, of.scope, of.values, clash.part);
        let earlier = value_number(self.symbols, of.scope, of.values, clash.with);
        let kind = CheckFaultKind::SharedNumber { value, earlier };
        add(
            self.alloc,
            self.number,
            place.as_slice(),
            NUMBER,
            kind,
            faults,
        )
    }

    // Adds the faults of values.
    fn add_all_shared(
        &self,
        path: &[i32],
        of: &Values<'_>,
        clashes: &[Clash],
        faults: &mut Vec<CheckFault>,
    ) -> Result<(), AllocError>
        ensures { OnOk result (faults.new.items ≡ faults.old.items ++ map (words.shared_number_at
            self.now.symbols.now self.now.number path.now of.now.scope.now of.now.values.now)
            clashes.now) }
    {
        for clash in clashes {
            self.add_shared(path, of, *clash, faults)?;
        }
        Ok(())
    }

    /// Adds what is wrong with an enum of this full name.
    pub(crate) fn check_values(
        &self,
        path: &[i32],
        full_name: &str,
        of: &EnumDescriptorProto,
        faults: &mut Vec<CheckFault>,
    ) -> Result<(), AllocError>
        ensures { OnOk result (faults.new.items ≡ faults.old.items
            ++ words.alias_faults self.now.symbols.now self.now.number path.now full_name.now
            of.now) }
    {
        if is_true(statements_of_enum(of), "allow_alias") {
            return Ok(());
        }
        let values = of.value.as_slice();
        let shared = shared_numbers(self.alloc, values)?;
        let scope = outer_scope(full_name).unwrap_or("");
        let values = Values { scope, values };
        self.add_all_shared(path, &values, shared.as_slice(), faults)
    }
}
