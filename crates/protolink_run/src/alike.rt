//! Values of enums whose names are alike. In proto3 that is a fault, in proto2 a warning.

use protox_alike::values_alike;
use protox_descriptor::descriptor::{EnumDescriptorProto, FileDescriptorProto};
use protox_descriptor::tag::enum_::VALUE;
use protox_descriptor::tag::enum_value::NAME;
use protox_descriptor::values::Text;
use protox_link_text::LinkError;
use protox_walk::{Part, Visit, walk};
use std::alloc::{AllocError, Global};

/// A value whose name is like that of an earlier one.
#[derive(Drop)]
pub(crate) struct AlikeValue {
    /// The path of its name.
    pub(crate) path: Vec<i32>,
    /// What is told of it.
    pub(crate) error: LinkError,
}

// Collects such values.
#[derive(Drop)]
struct Collector {
    alloc: Global,
    found: Vec<AlikeValue>,
}

fn name_at(of: &EnumDescriptorProto, index: usize) -> &str {
    let Some(value) = of.value.get(index) else {
        return "";
    };
    match &value.name {
        Some(name) => name.as_str(),
        None => "",
    }
}

impl Collector {
    fn add(
        &mut self,
        path: &[i32],
        of: &EnumDescriptorProto,
        value: usize,
        other: usize,
    ) -> Result<(), AllocError> {
        let Ok(index) = i32::try_from(value) else {
            return Ok(());
        };
        let mut whole = Vec::new(self.alloc);
        whole.extend_from_slice(path)?;
        whole.extend_from_slice(&[VALUE, index, NAME])?;
        let name = Text::copy(self.alloc, name_at(of, value))?;
        let other = Text::copy(self.alloc, name_at(of, other))?;
        let error = LinkError::ValuesAlike { name, other };
        self.found.push(AlikeValue { path: whole, error })?;
        Ok(())
    }
}

impl<'a> Visit<'a> for Collector {
    type Error = AllocError;

    fn visit(&mut self, path: &[i32], _name: &str, part: Part<'a>) -> Result<(), AllocError> {
        let Part::Enum(of) = part else {
            return Ok(());
        };
        for clash in &values_alike(self.alloc, of)? {
            self.add(path, of, clash.part, clash.with)?;
        }
        Ok(())
    }
}

fn is_proto3(file: &FileDescriptorProto) -> bool {
    match &file.syntax {
        Some(syntax) => syntax.as_str() == "proto3",
        None => false,
    }
}

/// The values of enums in a file of proto2 whose names are those of earlier ones, but for case, `_` and
/// the name of the enum in front.
///
/// # Errors
/// `AllocError` where memory runs out, or where a list has more than 2,147,483,648 parts: no path
/// can count them.
pub(crate) fn alike_in(
    alloc: Global,
    file: &FileDescriptorProto,
) -> Result<Vec<AlikeValue>, AllocError> {
    let found = Vec::new(alloc);
    let mut collector = Collector { alloc, found };
    if !is_proto3(file) {
        walk(alloc, file, &mut collector)?;
    }
    Ok(collector.found)
}
