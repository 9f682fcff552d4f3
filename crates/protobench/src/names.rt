//! The words of which names and comments are made, as schemas in the field have them.

use crate::draw::Draw;
use std::alloc::AllocError;

/// Words of names of fields.
pub const WORDS: [&str; 64] = [
    "account",
    "action",
    "address",
    "amount",
    "annotation",
    "audit",
    "balance",
    "batch",
    "billing",
    "bucket",
    "catalog",
    "channel",
    "cluster",
    "code",
    "config",
    "count",
    "created",
    "currency",
    "customer",
    "data",
    "deadline",
    "default",
    "delivery",
    "description",
    "device",
    "display",
    "duration",
    "end",
    "error",
    "event",
    "expire",
    "external",
    "feature",
    "filter",
    "flag",
    "group",
    "host",
    "id",
    "image",
    "index",
    "instance",
    "invoice",
    "key",
    "kind",
    "label",
    "language",
    "limit",
    "location",
    "metadata",
    "metric",
    "name",
    "network",
    "node",
    "order",
    "owner",
    "page",
    "parent",
    "payload",
    "policy",
    "region",
    "resource",
    "state",
    "token",
    "version",
];

/// The words, as names of types begin.
pub const TYPES: [&str; 64] = [
    "Account",
    "Action",
    "Address",
    "Amount",
    "Annotation",
    "Audit",
    "Balance",
    "Batch",
    "Billing",
    "Bucket",
    "Catalog",
    "Channel",
    "Cluster",
    "Code",
    "Config",
    "Count",
    "Created",
    "Currency",
    "Customer",
    "Data",
    "Deadline",
    "Default",
    "Delivery",
    "Description",
    "Device",
    "Display",
    "Duration",
    "End",
    "Error",
    "Event",
    "Expire",
    "External",
    "Feature",
    "Filter",
    "Flag",
    "Group",
    "Host",
    "Id",
    "Image",
    "Index",
    "Instance",
    "Invoice",
    "Key",
    "Kind",
    "Label",
    "Language",
    "Limit",
    "Location",
    "Metadata",
    "Metric",
    "Name",
    "Network",
    "Node",
    "Order",
    "Owner",
    "Page",
    "Parent",
    "Payload",
    "Policy",
    "Region",
    "Resource",
    "State",
    "Token",
    "Version",
];

/// What stands between the words of a comment.
pub const PHRASES: [&str; 16] = [
    " as the billing service stores it, of the ",
    " that the caller must give, or else the ",
    " in the form that RFC 3339 has, for the ",
    " is never deleted, only marked; see also the ",
    " by which clients look for it, without its ",
    " and is empty if the server knows no ",
    " with a length of at most 63 bytes of its ",
    ". It must not change after the first ",
    ", where each part stands for one ",
    " of the project that owns the resource and its ",
    " that was set when it was made, with the ",
    ". Required. The service fills in the ",
    ". Output only. It is the same as the ",
    " of the last request that was answered by the ",
    " if the request asks for the full view of the ",
    ". Deprecated: use the newer form of the ",
];

/// Types of fields that the language has.
pub const SCALARS: [&str; 16] = [
    "string", "string", "string", "string", "int32", "int64", "bool", "bool", "bytes", "double",
    "float", "uint32", "uint64", "sint64", "fixed64", "string",
];

/// Types that other files declare.
pub const REMOTE: [&str; 16] = [
    "google.protobuf.Timestamp",
    "google.protobuf.Timestamp",
    "google.protobuf.Duration",
    "google.protobuf.FieldMask",
    "google.protobuf.Struct",
    "google.protobuf.Any",
    "google.rpc.Status",
    "google.type.Money",
    "google.type.LatLng",
    ".google.type.Date",
    "google.type.PostalAddress",
    "google.protobuf.StringValue",
    ".google.protobuf.Empty",
    "google.api.HttpBody",
    "google.longrunning.Operation",
    "google.iam.v1.Policy",
];

const DIGITS: [&str; 10] = ["0", "1", "2", "3", "4", "5", "6", "7", "8", "9"];

/// Adds a number in decimal.
pub fn push_number(out: &mut String, number: u32) -> Result<(), AllocError> {
    if number >= 10 {
        push_number(out, number / 10)?;
    }
    out.push_str(DIGITS[(number % 10) as usize])?;
    Ok(())
}

/// Adds the name of a field, such as `billing_account_id`, with a number of its own at the end.
pub fn push_field_name(out: &mut String, draw: &mut Draw, number: u32) -> Result<(), AllocError> {
    out.push_str(draw.pick_of_many(&WORDS))?;
    if draw.chance(70) {
        out.push_str("_")?;
        out.push_str(draw.pick_of_many(&WORDS))?;
    }
    if draw.chance(25) {
        out.push_str("_")?;
        push_number(out, number)?;
    }
    Ok(())
}

/// Adds the name of a type of two words and a number, such as `BillingAccount3`.
pub fn push_type_name(out: &mut String, draw: &mut Draw, number: u32) -> Result<(), AllocError> {
    out.push_str(draw.pick_of_many(&TYPES))?;
    out.push_str(draw.pick_of_many(&TYPES))?;
    push_number(out, number)?;
    Ok(())
}

/// Adds the type of a field: one that the language has, one of another file, or one of this file.
pub fn push_type(out: &mut String, draw: &mut Draw) -> Result<(), AllocError> {
    let percent = draw.percent();
    if percent < 65 {
        out.push_str(draw.pick(&SCALARS))?;
    } else if percent < 80 {
        out.push_str(draw.pick(&REMOTE))?;
    } else {
        let number = draw.up_to(40);
        push_type_name(out, draw, number)?;
    }
    Ok(())
}
