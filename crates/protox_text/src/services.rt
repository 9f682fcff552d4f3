//! The text format of services.

use crate::each::{InText, write_any, write_items};
use crate::lines::{Level, write_close, write_open};
use protox_descriptor::descriptor::{MethodDescriptorProto, ServiceDescriptorProto};
use std::io::{self, Write};

impl InText for MethodDescriptorProto {
    ghost use Rattle.protox_text.specs.TextFormat.{method_text};

    ghost text = { method_text };

    fn write_to<W: Write>(&self, out: &mut W, level: Level, name: &str) -> io::Result<()> {
        write_open(out, level, name)?;
        let inner = level.inner();
        write_any(out, inner, "name", &self.name)?;
        write_any(out, inner, "input_type", &self.input_type)?;
        write_any(out, inner, "output_type", &self.output_type)?;
        write_any(out, inner, "options", &self.options)?;
        write_any(out, inner, "client_streaming", &self.client_streaming)?;
        write_any(out, inner, "server_streaming", &self.server_streaming)?;
        write_close(out, level)
    }
}

impl InText for ServiceDescriptorProto {
    ghost use Rattle.protox_text.specs.TextFormat.{service_text};

    ghost text = { service_text };

    fn write_to<W: Write>(&self, out: &mut W, level: Level, name: &str) -> io::Result<()> {
        write_open(out, level, name)?;
        let inner = level.inner();
        write_any(out, inner, "name", &self.name)?;
        write_items(out, inner, "method", &self.method)?;
        write_any(out, inner, "options", &self.options)?;
        write_close(out, level)
    }
}
