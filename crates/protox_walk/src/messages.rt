//! Messages, and the messages in them.

ghost use Rattle.std.specs.Prelude.{◌≡◌, ◌<◌, length, slice_index_or, IfOk, OnOk};
ghost use Rattle.std.specs.List.{FoldsTo};
ghost use Rattle.protox_descriptor.specs.declared.descriptor.DescriptorProto.{DescriptorProto, out-DescriptorProto};
ghost use Rattle.protox_walk.specs.Declarations.{message_at};
ghost use Rattle.protox_walk.specs.Parts.{Declared};
ghost use Rattle.protox_walk.specs.Steps.{back_at, front_at, name_of_message, nested_of};

use crate::each::{Declares, name_in, path_to, walk_each};
use crate::{Part, Visit};
use protox_descriptor::descriptor::DescriptorProto;
use protox_descriptor::tag::message::{ENUM_TYPE, EXTENSION, FIELD, NESTED_TYPE, ONEOF_DECL};
use protox_descriptor::values::Text;
use std::alloc::{AllocError, Global};

/// What a walk does at a message. `M` stands for a reference to one, as a bound may not name a
/// lifetime where a function calls itself.
pub(crate) trait Steps<M> {
    ghost visits: { Self → Declared → Self → Type 0 };

    ghost proto: { M → DescriptorProto };

    type Error: From<AllocError>;

    /// Visits a message and its fields. It answers the message's full name.
    fn enter(
        &mut self,
        alloc: Global,
        message: M,
        scope: &str,
        path: &[i32],
    ) -> Result<Text, Self::Error>
        ensures name { IfOk result (λ name. name ≡ name_of_message (proto message) scope.now) }
        ensures visited { OnOk result (FoldsTo visits self.old (front_at (proto message) (name_of_message (proto message) scope.now) path.now) self.new) };

    /// Visits the enums and the extensions in a message of this name, and its oneofs.
    fn leave(
        &mut self,
        alloc: Global,
        message: M,
        name: &str,
        path: &[i32],
    ) -> Result<(), Self::Error>
        ensures { OnOk result (FoldsTo visits self.old (back_at (proto message) name.now path.now) self.new) };

    /// How many messages are in a message.
    fn count(message: M) -> usize
        ensures { result ≡ length (nested_of (proto message)) };

    /// A message in a message.
    fn nested(message: M, index: usize) -> M
        requires { index < length (nested_of (proto message)) }
        ensures { proto result ≡ slice_index_or (nested_of (proto message)) index (proto result) };
}

impl<'a, V: Visit<'a>> Steps<&'a DescriptorProto> for V {
    ghost visits = { V.visits };

    ghost proto = { λ message. message.now };

    type Error = V::Error;

    fn enter(
        &mut self,
        alloc: Global,
        message: &'a DescriptorProto,
        scope: &str,
        path: &[i32],
    ) -> Result<Text, V::Error> {
        let name = name_in(alloc, scope, message.name.as_ref())?;
        self.visit(path, name.as_str(), Part::Message(message))?;
        walk_each(alloc, self, name.as_str(), path, FIELD, &message.field)?;
        Ok(name)
    }

    #[tactic(auto, using(crate::proofs::Folds::folds))]
    fn leave(
        &mut self,
        alloc: Global,
        message: &'a DescriptorProto,
        name: &str,
        path: &[i32],
    ) -> Result<(), V::Error> {
        walk_each(alloc, self, name, path, ENUM_TYPE, &message.enum_type)?;
        walk_each(alloc, self, name, path, EXTENSION, &message.extension)?;
        walk_each(alloc, self, name, path, ONEOF_DECL, &message.oneof_decl)
    }

    fn count(message: &'a DescriptorProto) -> usize {
        message.nested_type.as_slice().len()
    }

    fn nested(message: &'a DescriptorProto, index: usize) -> &'a DescriptorProto {
        &message.nested_type.as_slice()[index]
    }
}

fn walk_message<M: Copy, S: Steps<M>>(
    alloc: Global,
    steps: &mut S,
    message: M,
    scope: &str,
    path: &[i32],
) -> Result<(), S::Error>
    ensures { OnOk result (FoldsTo S.visits steps.old (message_at (S.proto message) scope.now path.now) steps.new) }
{
    let name = steps.enter(alloc, message, scope, path)?;
    for index in 0..S::count(message) {
        let nested = S::nested(message, index);
        let place = path_to(alloc, path, NESTED_TYPE, index)?;
        walk_message(alloc, steps, nested, name.as_str(), place.as_slice())?;
    }
    steps.leave(alloc, message, name.as_str(), path)
}

impl<'a, V: Visit<'a>> Declares<'a, V> for DescriptorProto {
    ghost declares = { message_at };

    fn walk(
        &'a self,
        alloc: Global,
        visitor: &mut V,
        scope: &str,
        path: &[i32],
    ) -> Result<(), V::Error> {
        walk_message(alloc, visitor, self, scope, path)
    }
}
