//! A trait that gives the options of any kind of declaration.

ghost use Rattle.std.specs.Prelude.{◌≡◌, List};
ghost use Rattle.protox_descriptor.specs.declared.descriptor.options.UninterpretedOption.{UninterpretedOption};

use crate::descriptor::{
    EnumOptions, EnumValueOptions, ExtensionRangeOptions, FieldOptions, FileOptions,
    MessageOptions, MethodOptions, OneofOptions, ServiceOptions, UninterpretedOption,
};

/// An options message of descriptor.proto, for any kind of declaration.
///
/// ```
/// fn print_options<O: HasUninterpreted>(options: &O) -> io::Result<()> {
///     for option in options.uninterpreted() {
///         println!(rt; "{option}")?;
///     }
///     Ok(())
/// }
/// ```
pub trait HasUninterpreted {
    /// The options as they stand in the source.
    ghost options: { Self → List UninterpretedOption };

    /// The options in order, as they stand in the source. Display writes each as a source has it:
    /// `(a.b).c = 1`.
    fn uninterpreted(&self) -> &[UninterpretedOption]
        ensures { result.now ≡ options self.now };
}

/// The options of a file.
impl HasUninterpreted for FileOptions {
    ghost options = { λ options. options.uninterpreted_option };

    fn uninterpreted(&self) -> &[UninterpretedOption] {
        self.uninterpreted_option.as_slice()
    }
}

/// The options of a message.
impl HasUninterpreted for MessageOptions {
    ghost options = { λ options. options.uninterpreted_option };

    fn uninterpreted(&self) -> &[UninterpretedOption] {
        self.uninterpreted_option.as_slice()
    }
}

/// The options of a field.
impl HasUninterpreted for FieldOptions {
    ghost options = { λ options. options.uninterpreted_option };

    fn uninterpreted(&self) -> &[UninterpretedOption] {
        self.uninterpreted_option.as_slice()
    }
}

/// The options of a oneof.
impl HasUninterpreted for OneofOptions {
    ghost options = { λ options. options.uninterpreted_option };

    fn uninterpreted(&self) -> &[UninterpretedOption] {
        self.uninterpreted_option.as_slice()
    }
}

/// The options of an enum.
impl HasUninterpreted for EnumOptions {
    ghost options = { λ options. options.uninterpreted_option };

    fn uninterpreted(&self) -> &[UninterpretedOption] {
        self.uninterpreted_option.as_slice()
    }
}

/// The options of a value of an enum.
impl HasUninterpreted for EnumValueOptions {
    ghost options = { λ options. options.uninterpreted_option };

    fn uninterpreted(&self) -> &[UninterpretedOption] {
        self.uninterpreted_option.as_slice()
    }
}

/// The options of a service.
impl HasUninterpreted for ServiceOptions {
    ghost options = { λ options. options.uninterpreted_option };

    fn uninterpreted(&self) -> &[UninterpretedOption] {
        self.uninterpreted_option.as_slice()
    }
}

/// The options of a method.
impl HasUninterpreted for MethodOptions {
    ghost options = { λ options. options.uninterpreted_option };

    fn uninterpreted(&self) -> &[UninterpretedOption] {
        self.uninterpreted_option.as_slice()
    }
}

/// The options of a range of extension numbers.
impl HasUninterpreted for ExtensionRangeOptions {
    ghost options = { λ options. options.uninterpreted_option };

    fn uninterpreted(&self) -> &[UninterpretedOption] {
        self.uninterpreted_option.as_slice()
    }
}
