//! What is wrong with a message or a service.

ghost use Rattle.std.specs.Prelude.{◌≡◌, ◌++◌, ◌∷◌, [], OnOk};
ghost use Rattle.protox_option_checks.specs.Parts as words;

use crate::adding::{add, add_if, path_to};
use crate::marks::is_message_set;
use crate::site::Site;
use crate::{CheckFault, CheckFaultKind};
use protox_descriptor::descriptor::{DescriptorProto, FieldDescriptorProto};
use protox_descriptor::tag::{field, message, service};
use std::alloc::AllocError;

impl Site<'_> {
    // Adds the fault of a field of a message set.
    fn add_set_field(
        &self,
        path: &[i32],
        index: usize,
        faults: &mut Vec<CheckFault>,
    ) -> Result<(), AllocError>
        ensures { OnOk result (faults.new.items ≡ faults.old.items
            ++ words.set_field_at self.now.number path.now index ∷ []) }
    {
        let place = path_to(self.alloc, path, message::FIELD, index)?;
        let kind = CheckFaultKind::MessageSetField;
        add(
            self.alloc,
            self.number,
            place.as_slice(),
            field::NAME,
            kind,
            faults,
        )
    }

    // Adds the faults of the fields of a message set.
    fn add_set_fields(
        &self,
        path: &[i32],
        fields: &[FieldDescriptorProto],
        faults: &mut Vec<CheckFault>,
    ) -> Result<(), AllocError>
        ensures { OnOk result (faults.new.items ≡ faults.old.items
            ++ words.set_fields_from self.now.number path.now 0 fields.now) }
    {
        for (index, _) in fields.iter().enumerate() {
            self.add_set_field(path, index, faults)?;
        }
        Ok(())
    }

    /// Adds what is wrong with a message.
    pub(crate) fn check_message(
        &self,
        path: &[i32],
        of: &DescriptorProto,
        faults: &mut Vec<CheckFault>,
    ) -> Result<(), AllocError>
        ensures { OnOk result (faults.new.items ≡ faults.old.items
            ++ words.message_faults self.now.number path.now self.now.marks.now of.now) }
    {
        if !is_message_set(of) {
            return Ok(());
        }
        let wrong = self.marks.is_proto3(self.number);
        let kind = CheckFaultKind::MessageSetInProto3;
        add_if(
            wrong,
            self.alloc,
            self.number,
            path,
            message::NAME,
            kind,
            faults,
        )?;
        self.add_set_fields(path, of.field.as_slice(), faults)
    }

    /// Adds what is wrong with a service.
    pub(crate) fn check_service(
        &self,
        path: &[i32],
        faults: &mut Vec<CheckFault>,
    ) -> Result<(), AllocError>
        ensures { OnOk result (faults.new.items ≡ faults.old.items
            ++ words.service_faults self.now.number path.now self.now.marks.now) }
    {
        let wrong = self.marks.bars_services(self.number);
        let kind = CheckFaultKind::LiteService;
        add_if(
            wrong,
            self.alloc,
            self.number,
            path,
            service::NAME,
            kind,
            faults,
        )
    }
}
