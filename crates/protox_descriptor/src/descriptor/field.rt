//! The message `FieldDescriptorProto`.

ghost use Rattle.std.specs.Prelude.{◌≡◌, None, IsOk, IsSome, IfOk, OnOk, OnErr};
ghost use Rattle.std.specs.Borrow.{sem};
ghost use Rattle.std.specs.Option.{option_copied, option_copied_mut};
ghost use Rattle.protox_descriptor.specs.inner.HeldField.{rare_parts};
ghost use Rattle.protox_descriptor.specs.LentOptions.{lends_options};
ghost use Rattle.protox_descriptor.specs.inner.SameFields.{options_eq, rare_eq, field_eq, field_per};

use super::FieldOptions;
use super::source_code_info::are_equal;
use crate::values::Text;
use std::alloc::{AllocError, Global};
use std::boxed::Box;
use std::fmt;
use std::marker::Model;

// What a field says about its oneof. The oneof may be one that is made for the field alone.
#[derive(Clone, Copy)]
struct InOneof {
    index: Option<i32>,
    proto3_optional: Option<bool>,
}

// The parts that most fields lack.
#[derive(Drop)]
struct RareParts {
    in_oneof: InOneof,
    extendee: Option<Text>,
    default_value: Option<Text>,
    json_name: Option<Text>,
    options: Option<FieldOptions>,
}

// A field without rare parts holds what it says about its oneof in the value itself.
#[derive(Drop)]
enum Rest {
    Plain(InOneof),
    Rare(Box<RareParts>),
}

// Puts the rare parts into a box, together with what the field says about its oneof. Without rare
// parts there is no box.
fn rest_of(
    alloc: Global,
    in_oneof: InOneof,
    extendee: Option<Text>,
    default_value: Option<Text>,
    json_name: Option<Text>,
    options: Option<FieldOptions>,
) -> Result<Rest, AllocError>
    ensures value { IfOk result (λ made. rare_parts made ≡ record { in_oneof = in_oneof; extendee = extendee; default_value = default_value; json_name = json_name; options = options }) }
    ensures free { extendee ≡ None → default_value ≡ None → json_name ≡ None → options ≡ None → IsOk result }
{
    if extendee.is_none() && default_value.is_none() && json_name.is_none() && options.is_none() {
        return Ok(Rest::Plain(in_oneof));
    }
    let parts = Box::new(
        alloc,
        RareParts {
            in_oneof,
            extendee,
            default_value,
            json_name,
            options,
        },
    )?;
    Ok(Rest::Rare(parts))
}

/// The message `FieldDescriptorProto`: a field of a message, or an extension. Parts that most
/// fields lack are held in a box, and only if there are some. Functions with the names of the
/// message's fields read them.
#[derive(Drop)]
pub struct FieldDescriptorProto {
    /// Its name.
    pub name: Option<Text>,
    /// Its number.
    pub number: Option<i32>,
    /// Its label: the number of a `field_descriptor_proto::Label`.
    pub label: Option<i32>,
    /// Its type: the number of a `field_descriptor_proto::FieldType`. The message calls this field
    /// `type`.
    pub field_type: Option<i32>,
    /// The name of its type, as it stands in the source. For a group or a map it names the message
    /// made for it. None for a scalar type.
    pub type_name: Option<Text>,
    rest: Rest,
}

// The two texts in it take 80 of these bytes.
const _: () = prove!(size_of::<FieldDescriptorProto>() == 120);

impl Model for FieldDescriptorProto {
    ghost use Rattle.protox_descriptor.specs.FieldDescriptorProto as seen;

    ghost Value = { seen.FieldDescriptorProto };

    ghost use Rattle.protox_descriptor.specs.inner.HeldField.{field_of};

    ghost view = { field_of };
}

impl FieldDescriptorProto {
    /// A message with nothing set. It takes no memory.
    pub fn new(_alloc: Global) -> FieldDescriptorProto
        ensures { result ≡ record { name = None; number = None; label = None; field_type = None; type_name = None; extendee = None; default_value = None; oneof_index = None; json_name = None; options = None; proto3_optional = None } }
    {
        FieldDescriptorProto::plain(None, None, None, None, None, None, None)
    }

    /// A field without rare parts. It takes no memory.
    pub fn plain(
        name: Option<Text>,
        number: Option<i32>,
        label: Option<i32>,
        field_type: Option<i32>,
        type_name: Option<Text>,
        oneof_index: Option<i32>,
        proto3_optional: Option<bool>,
    ) -> FieldDescriptorProto
        ensures { result ≡ record { name = name; number = number; label = label; field_type = field_type; type_name = type_name; extendee = None; default_value = None; oneof_index = oneof_index; json_name = None; options = None; proto3_optional = proto3_optional } }
    {
        FieldDescriptorProto {
            name,
            number,
            label,
            field_type,
            type_name,
            rest: Rest::Plain(InOneof {
                index: oneof_index,
                proto3_optional,
            }),
        }
    }

    /// This field with these rare parts in place of its own, or `AllocError`. If all of them are
    /// None, it takes no memory.
    pub fn with_rare_parts(
        self,
        alloc: Global,
        extendee: Option<Text>,
        default_value: Option<Text>,
        json_name: Option<Text>,
        options: Option<FieldOptions>,
    ) -> Result<FieldDescriptorProto, AllocError>
        ensures value { IfOk result (λ made. made ≡ record self { extendee = extendee; default_value = default_value; json_name = json_name; options = options }) }
        ensures free { extendee ≡ None → default_value ≡ None → json_name ≡ None → options ≡ None → IsOk result }
    {
        let in_oneof = self.in_oneof();
        let rest = rest_of(alloc, in_oneof, extendee, default_value, json_name, options)?;
        let FieldDescriptorProto {
            name,
            number,
            label,
            field_type,
            type_name,
            rest: _,
        } = self;
        Ok(FieldDescriptorProto {
            name,
            number,
            label,
            field_type,
            type_name,
            rest,
        })
    }

    // What the field says about its oneof.
    fn in_oneof(&self) -> InOneof
        ensures index { result.index ≡ self.now.oneof_index }
        ensures proto3_optional { result.proto3_optional ≡ self.now.proto3_optional }
    {
        match &self.rest {
            Rest::Plain(in_oneof) => *in_oneof,
            Rest::Rare(parts) => parts.in_oneof,
        }
    }

    /// The index of the field's oneof in `oneof_decl`, from 0.
    pub fn oneof_index(&self) -> Option<i32>
        ensures { result ≡ self.now.oneof_index }
    {
        self.in_oneof().index
    }

    /// Whether the field has the word `optional` in proto3. None if that isn't set.
    pub fn proto3_optional(&self) -> Option<bool>
        ensures { result ≡ self.now.proto3_optional }
    {
        self.in_oneof().proto3_optional
    }

    /// The message that an extension extends.
    pub fn extendee(&self) -> Option<&Text>
        ensures { option_copied result ≡ self.now.extendee }
    {
        match &self.rest {
            Rest::Rare(parts) => parts.extendee.as_ref(),
            Rest::Plain(_) => None,
        }
    }

    /// The default value of the field, as a text.
    pub fn default_value(&self) -> Option<&Text>
        ensures { option_copied result ≡ self.now.default_value }
    {
        match &self.rest {
            Rest::Rare(parts) => parts.default_value.as_ref(),
            Rest::Plain(_) => None,
        }
    }

    /// The name of the field in JSON, if the source gives one.
    pub fn json_name(&self) -> Option<&Text>
        ensures { option_copied result ≡ self.now.json_name }
    {
        match &self.rest {
            Rest::Rare(parts) => parts.json_name.as_ref(),
            Rest::Plain(_) => None,
        }
    }

    /// The options of the field.
    pub fn options(&self) -> Option<&FieldOptions>
        ensures { option_copied result ≡ self.now.options }
    {
        match &self.rest {
            Rest::Rare(parts) => parts.options.as_ref(),
            Rest::Plain(_) => None,
        }
    }

    /// The options of the field, to be changed. It takes no memory.
    ///
    /// ```
    /// if let Some(options) = field.options_mut() {
    ///     options.uninterpreted_option.truncate(0);
    /// }
    /// ```
    pub fn options_mut(&mut self) -> Option<&mut FieldOptions>
        // The field then has what was left behind the reference. Without a reference it is
        // unchanged.
        ensures* writes_back { sem 𝓛 (lends_options self.entry result) }
        ensures value { option_copied_mut result ≡ self.old.options }
    {
        match &mut self.rest {
            Rest::Rare(parts) => parts.options.as_mut(),
            Rest::Plain(_) => None,
        }
    }

    // Gives back the box of the rare parts if none of them is left.
    fn settle(&mut self)
        ensures { self.new ≡ self.old }
    {
        if let Rest::Rare(parts) = &self.rest {
            if parts.extendee.is_none()
                && parts.default_value.is_none()
                && parts.json_name.is_none()
                && parts.options.is_none()
            {
                self.rest = Rest::Plain(parts.in_oneof);
            }
        }
    }

    /// Sets the index of the field's oneof in `oneof_decl`, from 0. None removes it.
    pub fn set_oneof_index(&mut self, oneof_index: Option<i32>)
        ensures { self.new ≡ record self.old { oneof_index = oneof_index } }
    {
        match &mut self.rest {
            Rest::Plain(in_oneof) => in_oneof.index = oneof_index,
            Rest::Rare(parts) => parts.in_oneof.index = oneof_index,
        }
    }

    /// Sets whether the field has the word `optional` in proto3. None removes it.
    pub fn set_proto3_optional(&mut self, proto3_optional: Option<bool>)
        ensures { self.new ≡ record self.old { proto3_optional = proto3_optional } }
    {
        match &mut self.rest {
            Rest::Plain(in_oneof) => in_oneof.proto3_optional = proto3_optional,
            Rest::Rare(parts) => parts.in_oneof.proto3_optional = proto3_optional,
        }
    }

    /// Sets the message that an extension extends. None removes it. On `AllocError` the field is
    /// unchanged, and `extendee` is dropped. It takes memory only if the field has no rare part
    /// yet.
    pub fn set_extendee(&mut self, alloc: Global, extendee: Option<Text>) -> Result<(), AllocError>
        ensures ok { OnOk result (self.new ≡ record self.old { extendee = extendee }) }
        ensures err { OnErr result (self.new ≡ self.old) }
        ensures free { extendee ≡ None → IsOk result }
        ensures in_place { IsSome self.old.extendee → IsOk result }
    {
        match &mut self.rest {
            Rest::Rare(parts) => parts.extendee = extendee,
            Rest::Plain(in_oneof) => {
                let rest = rest_of(alloc, *in_oneof, extendee, None, None, None)?;
                self.rest = rest;
            }
        }
        self.settle();
        Ok(())
    }

    /// Takes out the message that an extension extends.
    pub fn take_extendee(&mut self) -> Option<Text>
        ensures value { result ≡ self.old.extendee }
        ensures rest { self.new ≡ record self.old { extendee = None } }
    {
        let taken = match &mut self.rest {
            Rest::Rare(parts) => parts.extendee.take(),
            Rest::Plain(_) => None,
        };
        self.settle();
        taken
    }

    /// Sets the default value of the field, as a text. None removes it. On `AllocError` the field
    /// is unchanged, and `default_value` is dropped. It takes memory only if the field has no rare
    /// part yet.
    pub fn set_default_value(
        &mut self,
        alloc: Global,
        default_value: Option<Text>,
    ) -> Result<(), AllocError>
        ensures ok { OnOk result (self.new ≡ record self.old { default_value = default_value }) }
        ensures err { OnErr result (self.new ≡ self.old) }
        ensures free { default_value ≡ None → IsOk result }
        ensures in_place { IsSome self.old.default_value → IsOk result }
    {
        match &mut self.rest {
            Rest::Rare(parts) => parts.default_value = default_value,
            Rest::Plain(in_oneof) => {
                let rest = rest_of(alloc, *in_oneof, None, default_value, None, None)?;
                self.rest = rest;
            }
        }
        self.settle();
        Ok(())
    }

    /// Takes out the default value of the field.
    pub fn take_default_value(&mut self) -> Option<Text>
        ensures value { result ≡ self.old.default_value }
        ensures rest { self.new ≡ record self.old { default_value = None } }
    {
        let taken = match &mut self.rest {
            Rest::Rare(parts) => parts.default_value.take(),
            Rest::Plain(_) => None,
        };
        self.settle();
        taken
    }

    /// Sets the name of the field in JSON. None removes it. On `AllocError` the field is unchanged,
    /// and `json_name` is dropped. It takes memory only if the field has no rare part yet.
    ///
    /// ```
    /// let name = Text::copy(alloc, "userName")?;
    /// field.set_json_name(alloc, Some(name))?;
    /// ```
    pub fn set_json_name(
        &mut self,
        alloc: Global,
        json_name: Option<Text>,
    ) -> Result<(), AllocError>
        ensures ok { OnOk result (self.new ≡ record self.old { json_name = json_name }) }
        ensures err { OnErr result (self.new ≡ self.old) }
        ensures free { json_name ≡ None → IsOk result }
        ensures in_place { IsSome self.old.json_name → IsOk result }
    {
        match &mut self.rest {
            Rest::Rare(parts) => parts.json_name = json_name,
            Rest::Plain(in_oneof) => {
                let rest = rest_of(alloc, *in_oneof, None, None, json_name, None)?;
                self.rest = rest;
            }
        }
        self.settle();
        Ok(())
    }

    /// Takes out the name of the field in JSON.
    pub fn take_json_name(&mut self) -> Option<Text>
        ensures value { result ≡ self.old.json_name }
        ensures rest { self.new ≡ record self.old { json_name = None } }
    {
        let taken = match &mut self.rest {
            Rest::Rare(parts) => parts.json_name.take(),
            Rest::Plain(_) => None,
        };
        self.settle();
        taken
    }

    /// Sets the options of the field. None removes them. On `AllocError` the field is unchanged,
    /// and `options` is dropped. It takes memory only if the field has no rare part yet.
    pub fn set_options(
        &mut self,
        alloc: Global,
        options: Option<FieldOptions>,
    ) -> Result<(), AllocError>
        ensures ok { OnOk result (self.new ≡ record self.old { options = options }) }
        ensures err { OnErr result (self.new ≡ self.old) }
        ensures free { options ≡ None → IsOk result }
        ensures in_place { IsSome self.old.options → IsOk result }
    {
        match &mut self.rest {
            Rest::Rare(parts) => parts.options = options,
            Rest::Plain(in_oneof) => {
                let rest = rest_of(alloc, *in_oneof, None, None, None, options)?;
                self.rest = rest;
            }
        }
        self.settle();
        Ok(())
    }

    /// Takes out the options of the field.
    pub fn take_options(&mut self) -> Option<FieldOptions>
        ensures value { result ≡ self.old.options }
        ensures rest { self.new ≡ record self.old { options = None } }
    {
        let taken = match &mut self.rest {
            Rest::Rare(parts) => parts.options.take(),
            Rest::Plain(_) => None,
        };
        self.settle();
        taken
    }
}

fn are_options_equal(first: Option<&FieldOptions>, second: Option<&FieldOptions>) -> bool
    ensures { result ≡ options_eq (option_copied first.entry) (option_copied second.entry) }
{
    match (first, second) {
        (Some(first), Some(second)) => first == second,
        (None, None) => true,
        _ => false,
    }
}

// Whether the rare parts of both fields are equal.
fn are_rare_parts_equal(first: &FieldDescriptorProto, second: &FieldDescriptorProto) -> bool
    ensures { result ≡ rare_eq first.now second.now }
{
    are_equal(first.extendee(), second.extendee())
        && are_equal(first.default_value(), second.default_value())
        && first.oneof_index() == second.oneof_index()
        && are_equal(first.json_name(), second.json_name())
        && are_options_equal(first.options(), second.options())
        && first.proto3_optional() == second.proto3_optional()
}

impl PartialEq for FieldDescriptorProto {
    ghost eq = { field_eq };

    ghost laws = { field_per };

    fn eq(&self, other: &FieldDescriptorProto) -> bool {
        self.name == other.name
            && self.number == other.number
            && self.label == other.label
            && self.field_type == other.field_type
            && self.type_name == other.type_name
            && are_rare_parts_equal(self, other)
    }
}

impl fmt::Debug for FieldDescriptorProto {
    fn fmt<W: fmt::Write>(&self, f: &mut fmt::Formatter<W>) -> fmt::Result {
        f.debug_struct("FieldDescriptorProto")
            .field("name", &self.name)
            .field("number", &self.number)
            .field("label", &self.label)
            .field("field_type", &self.field_type)
            .field("type_name", &self.type_name)
            .field("extendee", &self.extendee())
            .field("default_value", &self.default_value())
            .field("oneof_index", &self.oneof_index())
            .field("json_name", &self.json_name())
            .field("options", &self.options())
            .field("proto3_optional", &self.proto3_optional())
            .finish()
    }
}
