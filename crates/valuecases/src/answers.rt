//! What is printed for a statement.

use crate::made::statement;
use protox_descriptor::descriptor::field_descriptor_proto::FieldType;
use protox_descriptor::descriptor::{EnumDescriptorProto, UninterpretedOption};
use protox_values::{
    EnumFaultText, FaultText, ScalarType, SettingValue, ValueFailure, enum_value, scalar_value,
};
use std::alloc::{AllocError, Global};

fn type_of(word: &str) -> FieldType {
    match word {
        "double" => FieldType::Double,
        "float" => FieldType::Float,
        "int64" => FieldType::Int64,
        "uint64" => FieldType::Uint64,
        "int32" => FieldType::Int32,
        "fixed64" => FieldType::Fixed64,
        "fixed32" => FieldType::Fixed32,
        "bool" => FieldType::Bool,
        "string" => FieldType::String,
        "bytes" => FieldType::Bytes,
        "uint32" => FieldType::Uint32,
        "sfixed32" => FieldType::Sfixed32,
        "sfixed64" => FieldType::Sfixed64,
        "sint32" => FieldType::Sint32,
        "sint64" => FieldType::Sint64,
        _ => FieldType::Enum,
    }
}

fn shown(alloc: Global, setting: &SettingValue) -> Result<String, AllocError> {
    match setting {
        SettingValue::Varint(n) => format!(in alloc; "varint {n}"),
        SettingValue::Four(n) => format!(in alloc; "four {n}"),
        SettingValue::Eight(n) => format!(in alloc; "eight {n}"),
        SettingValue::Bytes(bytes) => {
            let digits = hex::encode(alloc, bytes.as_slice())?;
            format!(in alloc; "bytes {digits}")
        }
    }
}

fn scalar_answer(
    alloc: Global,
    option: &UninterpretedOption,
    scalar: ScalarType,
    full_name: &str,
) -> Result<String, AllocError> {
    match scalar_value(alloc, option, scalar) {
        Ok(setting) => shown(alloc, &setting),
        Err(ValueFailure::OutOfMemory) => Err(AllocError),
        Err(ValueFailure::Fault(fault)) => {
            let name = full_name.rsplit('.').next().unwrap_or("");
            let text = FaultText {
                fault,
                scalar,
                full_name,
                name,
            };
            format!(in alloc; "{text}")
        }
    }
}

fn enum_answer(
    alloc: Global,
    option: &UninterpretedOption,
    of: &EnumDescriptorProto,
    full_name: &str,
) -> Result<String, AllocError> {
    match enum_value(option, of.value.as_slice()) {
        Ok(setting) => shown(alloc, &setting),
        Err(fault) => {
            let text = EnumFaultText {
                fault,
                of: of.name.as_ref().map(|name| name.as_str()).unwrap_or(""),
                value: option
                    .identifier_value
                    .as_ref()
                    .map(|name| name.as_str())
                    .unwrap_or(""),
                full_name,
            };
            format!(in alloc; "{text}")
        }
    }
}

fn answer_of(
    alloc: Global,
    option: &UninterpretedOption,
    of: &EnumDescriptorProto,
    word: &str,
    full_name: &str,
) -> Result<String, AllocError> {
    match ScalarType::from_type(type_of(word)) {
        Some(scalar) => scalar_answer(alloc, option, scalar, full_name),
        None => enum_answer(alloc, option, of, full_name),
    }
}

/// What the statement of a line says to the field of a type.
pub(crate) fn answer(
    alloc: Global,
    of: &EnumDescriptorProto,
    word: &str,
    rest: &str,
) -> Result<String, AllocError> {
    let (full_name, value) = rest.split_once(' ').unwrap_or((rest, ""));
    let (part, text) = value.split_once(' ').unwrap_or((value, ""));
    let option = statement(alloc, part, text)?;
    answer_of(alloc, &option, of, word, full_name)
}
