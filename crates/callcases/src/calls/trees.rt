//! Calls of the syntax tree.

use protox_parse::ast::{
    self, Boxed, FullIdent, Ident, Int, OptionBody, OptionNamePart, OptionValue, Syntax, Ty,
    TypeName,
};
use protox_parse::values::Items;
use std::alloc::{AllocError, Global};

fn ident(alloc: Global, value: &str, start: usize) -> Result<Ident, AllocError> {
    let end = start.saturating_add(value.len());
    Ok(Ident::new(String::from_str(alloc, value)?, start..end))
}

// `.foo.Bar`, from 4 on
fn type_name(alloc: Global) -> Result<TypeName, AllocError> {
    let mut parts = Vec::new(alloc);
    parts.push(ident(alloc, "foo", 5)?)?;
    parts.push(ident(alloc, "Bar", 9)?)?;
    Ok(TypeName {
        leading_dot: Some(4..5),
        name: FullIdent::from_parts(parts),
    })
}

pub fn names(alloc: Global) -> Result<String, AllocError> {
    let name = type_name(alloc)?;
    let (whole, part) = (name.text(alloc)?, name.name.text(alloc)?);
    let (first, second) = (name.span(), name.name.span());
    let parts = name.name.parts().len();
    format!(in alloc; "{name} {whole} {part} {first:?} {second:?} {parts}")
}

pub fn single_names(alloc: Global) -> Result<String, AllocError> {
    let single = FullIdent::from_ident(alloc, ident(alloc, "a", 0)?)?;
    format!(in alloc; "{single} {:?}", single.span())
}

pub fn types(alloc: Global) -> Result<String, AllocError> {
    let named = Ty::Named(type_name(alloc)?);
    let text = named.ty_name(alloc)?;
    let (none, scalar) = (named.proto_ty(), Ty::Sint32.proto_ty());
    format!(in alloc; "{none:?} {text:?} {scalar:?}")
}

pub fn syntaxes(alloc: Global) -> Result<String, AllocError> {
    format!(in alloc; "{} {}", Syntax::default(), Syntax::Proto3)
}

fn int(negative: bool, value: u64) -> Int {
    Int {
        negative,
        value,
        span: 14..16,
    }
}

// The integer as it prints, and by each of its four calls.
fn ranges(alloc: Global, negative: bool, value: u64) -> Result<String, AllocError> {
    let int = int(negative, value);
    let signed = format!(in alloc; "{int} {:?} {:?}", int.as_i32(), int.as_i64())?;
    format!(in alloc; "{signed} {:?} {:?}", int.as_u32(), int.as_u64())
}

pub fn integers(alloc: Global) -> Result<String, AllocError> {
    let mut out = String::new(alloc);
    for (negative, value) in [
        (true, 0),
        (true, 2147483648),
        (false, 2147483648),
        (false, 4294967296),
        (true, 9223372036854775808),
        (true, 9223372036854775809),
    ] {
        out.push_str(ranges(alloc, negative, value)?.as_str())?;
        out.push_str("; ")?;
    }
    Ok(out)
}

fn string(alloc: Global, bytes: &[u8]) -> Result<ast::String, AllocError> {
    Ok(ast::String {
        value: Items::from_slice(alloc, bytes)?,
        span: 0..4,
    })
}

pub fn strings(alloc: Global) -> Result<String, AllocError> {
    let string = string(alloc, b"a\t\r\n\\'\"\x00\xff")?;
    format!(in alloc; "{string}")
}

pub fn quotes(alloc: Global) -> Result<String, AllocError> {
    let string = string(alloc, b"a\"")?;
    format!(in alloc; "{string:?}")
}

// `(.ext)` at 0..6 and `ident` at 7..12
fn option_name(alloc: Global) -> Result<Items<OptionNamePart>, AllocError> {
    let extension = TypeName {
        leading_dot: Some(1..2),
        name: FullIdent::from_ident(alloc, ident(alloc, "ext", 2)?)?,
    };
    let mut name = Items::new(alloc);
    name.push(OptionNamePart::Extension(extension, 0..6))?;
    name.push(OptionNamePart::Ident(ident(alloc, "ident", 7)?))?;
    Ok(name)
}

pub fn option_places(alloc: Global) -> Result<String, AllocError> {
    let name = option_name(alloc)?;
    let value = OptionValue::Int(int(true, 5));
    let body = OptionBody { name, value };
    let (name, whole) = (body.name_span(), body.span());
    let (last, both) = (body.has_name("ident"), body.has_name("(.ext).ident"));
    format!(in alloc; "{name:?} {whole:?} {last} {both}")
}

pub fn options(alloc: Global) -> Result<String, AllocError> {
    let value = OptionValue::Int(int(true, 5));
    let (token, float) = (value.to_token_string(alloc)?, value.as_float_text(alloc)?);
    format!(in alloc; "{token} {float:?}")
}

pub fn boxes(alloc: Global) -> Result<String, AllocError> {
    let held = Boxed::new(alloc, int(true, 5))?;
    format!(in alloc; "{}", held.get())
}
