//! The syntax tree: all declarations of a source, each with its span. The types are named after the
//! constructs of the Protocol Buffers language. So `Option` and `String` are types of this module,
//! and `Opt` is the standard `Option`. A span goes from the first token of a part to its last, in
//! byte offsets.

pub use crate::held::Boxed;
use protox_descriptor::values::{Items, Text};
use protox_fault::error::Span;
use std::boxed::Box;
use std::marker::Model;

mod commented;
mod names;
mod numbers;
mod options;
mod printed;
mod ranges;
mod spans;
mod strings;
mod types;

/// The standard `Option`.
pub type Opt<T> = std::option::Option<T>;

/// The syntax in which a file is written. Without a syntax statement it is proto2.
#[derive(Clone, Copy, Default, PartialEq, Debug)]
pub enum Syntax {
    /// `syntax = "proto2"`, or no syntax statement.
    #[default]
    Proto2,
    /// `syntax = "proto3"`.
    Proto3,
}

/// A source file.
#[derive(PartialEq, Debug, Drop)]
pub struct File {
    /// Its span in byte offsets: from its first token to its last. A file without tokens has the
    /// span from its length to 0.
    pub span: Span,
    /// The syntax in which the file is written.
    pub syntax: Syntax,
    /// The span and the comments of the syntax statement, if there is one.
    pub syntax_span: Opt<(Span, Comments)>,
    /// The package statement, if there is one.
    pub package: Opt<Package>,
    /// The imports, in order.
    pub imports: Items<Import>,
    /// The option statements, in order.
    pub options: Items<Option>,
    /// The enums, messages, extend blocks and services, in order.
    pub items: Items<FileItem>,
}

/// A declaration of a file.
#[derive(PartialEq, Debug, Drop)]
pub enum FileItem {
    /// An enum.
    Enum(Enum),
    /// A message.
    Message(Message),
    /// An extend block.
    Extend(Extend),
    /// A service.
    Service(Service),
}

// The comments of a declaration. There is at least one.
#[derive(Drop)]
struct HeldComments {
    detached: Items<Text>,
    leading: Opt<Text>,
    trailing: Opt<Text>,
}

/// The comments of a declaration. Most declarations have none, so that comments are held in a box,
/// and only if there are some. Functions read them.
#[derive(Drop)]
pub struct Comments {
    held: Opt<Box<HeldComments>>,
}

// The size counts: each declaration has such a value, mostly without a comment.
const _: () = prove!(size_of::<Comments>() == 16);

impl Model for Comments {
    ghost use Rattle.protox_ast.specs.Comments as seen;

    ghost Value = { seen.Comments };

    ghost use Rattle.protox_ast.specs.inner.HeldComments.{comments_of};

    ghost view = { comments_of };
}

/// An identifier.
#[derive(PartialEq, Debug, Drop)]
pub struct Ident {
    /// Its text.
    pub value: Text,
    /// Its span in byte offsets: from its first token to its last.
    pub span: Span,
}

/// Identifiers with dots between them. Contracts see the list of the parts, which has at least one.
#[derive(PartialEq, Debug, Drop)]
pub struct FullIdent {
    /// The identifiers, in order.
    pub parts: Items<Ident>,
}

impl Model for FullIdent {
    ghost use Rattle.std.specs.Prelude.{List, length, ◌<◌};
    ghost use Rattle.protox_ast.specs.declared.ast.Ident.{Ident};

    ghost Value = { List Ident };

    ghost view = { λ name. name.parts };

    ghost invariant = { λ name. 0 < length name.parts };

    ghost inverse = { λ parts. record { parts = parts } };
}

/// The name of a type. A leading dot says that it is a full path.
#[derive(PartialEq, Debug, Drop)]
pub struct TypeName {
    /// The span of the leading dot, if there is one.
    pub leading_dot: Opt<Span>,
    /// The name, after the dot.
    pub name: FullIdent,
}

/// An integer literal with its sign.
#[derive(PartialEq, Debug, Drop)]
pub struct Int {
    /// Whether a minus sign stands before it.
    pub negative: bool,
    /// Its value without the sign.
    pub value: u64,
    /// Its span in byte offsets: from its first token to its last.
    pub span: Span,
}

/// A float literal with its sign.
#[derive(PartialEq, Debug, Drop)]
pub struct Float {
    /// The text, with the sign.
    pub value: Text,
    /// Its span in byte offsets: from its first token to its last.
    pub span: Span,
}

/// A string: the joined bytes of its literals.
#[derive(PartialEq, Drop)]
pub struct String {
    /// The bytes.
    pub value: Items<u8>,
    /// Its span in byte offsets: from its first token to its last.
    pub span: Span,
}

/// The value of an option.
#[derive(PartialEq, Debug, Drop)]
pub enum OptionValue {
    /// An identifier, with a minus sign if `negative`. The span includes the sign.
    Ident {
        negative: bool,
        ident: Ident,
        span: Span,
    },
    /// An integer.
    Int(Int),
    /// A float.
    Float(Float),
    /// A string.
    String(String),
    /// The text between braces: its tokens, with a space between each two. The span includes the
    /// braces.
    Aggregate(Text, Span),
}

/// An import.
#[derive(PartialEq, Debug, Drop)]
pub struct Import {
    /// The word `weak` or `public` and its span, if there is one.
    pub kind: Opt<(ImportKind, Span)>,
    /// The name of the imported file.
    pub value: Text,
    /// The span of the name, from its first literal to its last.
    pub value_span: Span,
    /// The comments that belong to it.
    pub comments: Comments,
    /// Its span in byte offsets: from its first token to its last.
    pub span: Span,
}

/// The word after `import`.
#[derive(PartialEq, Debug, Drop)]
pub enum ImportKind {
    /// `weak`
    Weak,
    /// `public`
    Public,
}

/// A package statement.
#[derive(PartialEq, Debug, Drop)]
pub struct Package {
    /// The name.
    pub name: FullIdent,
    /// The comments that belong to it.
    pub comments: Comments,
    /// Its span in byte offsets: from its first token to its last.
    pub span: Span,
}

/// An option statement.
#[derive(PartialEq, Debug, Drop)]
pub struct Option {
    /// The name and the value.
    pub body: OptionBody,
    /// The comments that belong to it.
    pub comments: Comments,
    /// Its span in byte offsets: from its first token to its last.
    pub span: Span,
}

/// A part of an option's name.
#[derive(PartialEq, Debug, Drop)]
pub enum OptionNamePart {
    /// A plain part.
    Ident(Ident),
    /// The name of an extension. The span includes its parentheses.
    Extension(TypeName, Span),
}

/// The name and the value of an option.
#[derive(PartialEq, Debug, Drop)]
pub struct OptionBody {
    /// The parts of the name. There is at least one.
    pub name: Items<OptionNamePart>,
    /// The value.
    pub value: OptionValue,
}

/// Options in brackets. The span includes the brackets.
#[derive(PartialEq, Debug, Drop)]
pub struct OptionList {
    /// The options, in order. There is at least one.
    pub options: Items<OptionBody>,
    /// Its span in byte offsets: from its first token to its last.
    pub span: Span,
}

/// A message.
#[cycle(ast)]
#[derive(PartialEq, Debug, Drop)]
pub struct Message {
    /// The name.
    pub name: Ident,
    /// What stands between the braces.
    pub body: MessageBody,
    /// The comments that belong to it.
    pub comments: Comments,
    /// Its span in byte offsets: from its first token to its last.
    pub span: Span,
}

/// The part of a message or a group between its braces. Drop, `==` and Debug call themselves for
/// each level. A tree from a source has at most 31 levels (see `Boxed`). A deeper one can only be
/// made by hand.
#[cycle(ast)]
#[derive(PartialEq, Debug, Drop)]
pub struct MessageBody {
    /// The fields, enums, messages, extend blocks and oneofs, in order.
    pub items: Items<MessageItem>,
    /// The extensions statements, in order.
    pub extensions: Items<Extensions>,
    /// The option statements, in order.
    pub options: Items<Option>,
    /// The reserved statements, in order.
    pub reserved: Items<Reserved>,
}

/// A declaration of a message.
#[cycle(ast)]
#[derive(PartialEq, Debug, Drop)]
pub enum MessageItem {
    /// A field.
    Field(Field),
    /// An enum.
    Enum(Enum),
    /// A message.
    Message(Message),
    /// An extend block.
    Extend(Extend),
    /// A oneof.
    Oneof(Oneof),
}

/// A field, of any kind.
#[cycle(ast)]
#[derive(PartialEq, Debug, Drop)]
pub struct Field {
    /// The label and its span, if there is one.
    pub label: Opt<(FieldLabel, Span)>,
    /// The name.
    pub name: Ident,
    /// Whether it is a normal field, a group or a map, with its types.
    pub kind: FieldKind,
    /// The number.
    pub number: Int,
    /// The options in brackets, if there are any.
    pub options: Opt<Boxed<OptionList>>,
    /// The comments that belong to it.
    pub comments: Comments,
    /// Its span in byte offsets: from its first token to its last.
    pub span: Span,
}

/// The label of a field. `as i32` gives its number in descriptor.proto.
#[derive(Clone, Copy, PartialEq, Debug)]
pub enum FieldLabel {
    /// `optional`
    Optional = 1,
    /// `required`
    Required = 2,
    /// `repeated`
    Repeated = 3,
}

/// The kind of a field, with the spans of its types. The span of a group's type is the word
/// `group`. The span of a map's type goes from `map` to `>`.
#[cycle(ast)]
#[derive(PartialEq, Debug, Drop)]
pub enum FieldKind {
    /// A field of a scalar type or a named type.
    Normal {
        ty: Ty,
        ty_span: Span,
    },
    /// A group with its body.
    Group {
        ty_span: Span,
        body: Boxed<MessageBody>,
    },
    /// A map with the types of its keys and values.
    Map {
        ty_span: Span,
        key_ty: Boxed<Ty>,
        key_ty_span: Span,
        value_ty: Boxed<Ty>,
        value_ty_span: Span,
    },
}

/// The type of a field: a scalar type or a named type.
#[derive(PartialEq, Debug, Drop)]
pub enum Ty {
    /// `double`
    Double,
    /// `float`
    Float,
    /// `int32`
    Int32,
    /// `int64`
    Int64,
    /// `uint32`
    Uint32,
    /// `uint64`
    Uint64,
    /// `sint32`
    Sint32,
    /// `sint64`
    Sint64,
    /// `fixed32`
    Fixed32,
    /// `fixed64`
    Fixed64,
    /// `sfixed32`
    Sfixed32,
    /// `sfixed64`
    Sfixed64,
    /// `bool`
    Bool,
    /// `string`
    String,
    /// `bytes`
    Bytes,
    /// A type with a name.
    Named(TypeName),
}

/// A oneof.
#[cycle(ast)]
#[derive(PartialEq, Debug, Drop)]
pub struct Oneof {
    /// The name.
    pub name: Ident,
    /// The option statements, in order.
    pub options: Items<Option>,
    /// The fields, in order.
    pub fields: Items<Field>,
    /// The comments that belong to it.
    pub comments: Comments,
    /// Its span in byte offsets: from its first token to its last.
    pub span: Span,
}

/// An extend block.
#[cycle(ast)]
#[derive(PartialEq, Debug, Drop)]
pub struct Extend {
    /// The message that is extended.
    pub extendee: TypeName,
    /// The fields, in order.
    pub fields: Items<Field>,
    /// The comments that belong to it.
    pub comments: Comments,
    /// Its span in byte offsets: from its first token to its last.
    pub span: Span,
}

/// A reserved statement.
#[derive(PartialEq, Debug, Drop)]
pub struct Reserved {
    /// The ranges or the names.
    pub kind: ReservedKind,
    /// The comments that belong to it.
    pub comments: Comments,
    /// Its span in byte offsets: from its first token to its last.
    pub span: Span,
}

/// What a reserved statement reserves.
#[derive(PartialEq, Debug, Drop)]
pub enum ReservedKind {
    /// Numbers, in order.
    Ranges(Items<ReservedRange>),
    /// Names, in order.
    Names(Items<Ident>),
}

/// An extensions statement.
#[derive(PartialEq, Debug, Drop)]
pub struct Extensions {
    /// The ranges, in order.
    pub ranges: Items<ReservedRange>,
    /// The options in brackets, if there are any.
    pub options: Opt<Boxed<OptionList>>,
    /// The comments that belong to it.
    pub comments: Comments,
    /// Its span in byte offsets: from its first token to its last.
    pub span: Span,
}

/// A range of numbers.
#[derive(PartialEq, Debug, Drop)]
pub struct ReservedRange {
    /// The first number.
    pub start: Int,
    /// The end.
    pub end: ReservedRangeEnd,
}

/// The end of a range.
#[derive(PartialEq, Debug, Drop)]
pub enum ReservedRangeEnd {
    /// There is no end: the range is a single number.
    None,
    /// The last number.
    Int(Int),
    /// The word `max`, with its span.
    Max(Span),
}

/// An enum.
#[derive(PartialEq, Debug, Drop)]
pub struct Enum {
    /// The name.
    pub name: Ident,
    /// The option statements, in order.
    pub options: Items<Option>,
    /// The values, in order.
    pub values: Items<EnumValue>,
    /// The reserved statements, in order.
    pub reserved: Items<Reserved>,
    /// The comments that belong to it.
    pub comments: Comments,
    /// Its span in byte offsets: from its first token to its last.
    pub span: Span,
}

/// A value of an enum.
#[derive(PartialEq, Debug, Drop)]
pub struct EnumValue {
    /// The name.
    pub name: Ident,
    /// The number.
    pub number: Int,
    /// The options in brackets, if there are any.
    pub options: Opt<Boxed<OptionList>>,
    /// The comments that belong to it.
    pub comments: Comments,
    /// Its span in byte offsets: from its first token to its last.
    pub span: Span,
}

/// A service.
#[derive(PartialEq, Debug, Drop)]
pub struct Service {
    /// The name.
    pub name: Ident,
    /// The option statements, in order.
    pub options: Items<Option>,
    /// The methods, in order.
    pub methods: Items<Method>,
    /// The comments that belong to it.
    pub comments: Comments,
    /// Its span in byte offsets: from its first token to its last.
    pub span: Span,
}

/// A method of a service.
#[derive(PartialEq, Debug, Drop)]
pub struct Method {
    /// The name.
    pub name: Ident,
    /// The type of the request.
    pub input_ty: TypeName,
    /// The type of the response.
    pub output_ty: TypeName,
    /// The option statements, in order.
    pub options: Items<Option>,
    /// The span of `stream` before the request type, if it stands there.
    pub client_streaming: Opt<Span>,
    /// The span of `stream` before the response type, if it stands there.
    pub server_streaming: Opt<Span>,
    /// The comments that belong to it.
    pub comments: Comments,
    /// Its span in byte offsets: from its first token to its last.
    pub span: Span,
}
