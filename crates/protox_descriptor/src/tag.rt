//! The field numbers of the messages of descriptor.proto, in a module for each message. The paths
//! of locations are made of them.

/// The number of `uninterpreted_option` in each of the options messages.
pub const UNINTERPRETED_OPTION: i32 = 999;

/// The field numbers of `FileDescriptorProto`.
pub mod file {
    /// The number of `package`.
    pub const PACKAGE: i32 = 2;

    /// The number of `dependency`.
    pub const DEPENDENCY: i32 = 3;

    /// The number of `message_type`.
    pub const MESSAGE_TYPE: i32 = 4;

    /// The number of `enum_type`.
    pub const ENUM_TYPE: i32 = 5;

    /// The number of `service`.
    pub const SERVICE: i32 = 6;

    /// The number of `extension`.
    pub const EXTENSION: i32 = 7;

    /// The number of `options`.
    pub const OPTIONS: i32 = 8;

    /// The number of `public_dependency`.
    pub const PUBLIC_DEPENDENCY: i32 = 10;

    /// The number of `weak_dependency`.
    pub const WEAK_DEPENDENCY: i32 = 11;

    /// The number of `syntax`.
    pub const SYNTAX: i32 = 12;
}

/// The field numbers of `DescriptorProto`.
pub mod message {
    /// The number of `name`.
    pub const NAME: i32 = 1;

    /// The number of `field`.
    pub const FIELD: i32 = 2;

    /// The number of `nested_type`.
    pub const NESTED_TYPE: i32 = 3;

    /// The number of `enum_type`.
    pub const ENUM_TYPE: i32 = 4;

    /// The number of `extension_range`.
    pub const EXTENSION_RANGE: i32 = 5;

    /// The number of `extension`.
    pub const EXTENSION: i32 = 6;

    /// The number of `options`.
    pub const OPTIONS: i32 = 7;

    /// The number of `oneof_decl`.
    pub const ONEOF_DECL: i32 = 8;

    /// The number of `reserved_range`.
    pub const RESERVED_RANGE: i32 = 9;

    /// The number of `reserved_name`.
    pub const RESERVED_NAME: i32 = 10;

    /// The field numbers of `DescriptorProto.ExtensionRange`.
    pub mod extension_range {
        /// The number of `start`.
        pub const START: i32 = 1;

        /// The number of `end`.
        pub const END: i32 = 2;

        /// The number of `options`.
        pub const OPTIONS: i32 = 3;
    }

    /// The field numbers of `DescriptorProto.ReservedRange`.
    pub mod reserved_range {
        /// The number of `start`.
        pub const START: i32 = 1;

        /// The number of `end`.
        pub const END: i32 = 2;
    }
}

/// The field numbers of `FieldDescriptorProto`.
pub mod field {
    /// The number of `name`.
    pub const NAME: i32 = 1;

    /// The number of `extendee`.
    pub const EXTENDEE: i32 = 2;

    /// The number of `number`.
    pub const NUMBER: i32 = 3;

    /// The number of `label`.
    pub const LABEL: i32 = 4;

    /// The number of `type`.
    pub const TYPE: i32 = 5;

    /// The number of `type_name`.
    pub const TYPE_NAME: i32 = 6;

    /// The number of `default_value`.
    pub const DEFAULT_VALUE: i32 = 7;

    /// The number of `options`.
    pub const OPTIONS: i32 = 8;

    /// The number of `json_name`.
    pub const JSON_NAME: i32 = 10;
}

/// The field numbers of `OneofDescriptorProto`.
pub mod oneof {
    /// The number of `name`.
    pub const NAME: i32 = 1;

    /// The number of `options`.
    pub const OPTIONS: i32 = 2;
}

/// The field numbers of `EnumDescriptorProto`.
pub mod enum_ {
    /// The number of `name`.
    pub const NAME: i32 = 1;

    /// The number of `value`.
    pub const VALUE: i32 = 2;

    /// The number of `options`.
    pub const OPTIONS: i32 = 3;

    /// The number of `reserved_range`.
    pub const RESERVED_RANGE: i32 = 4;

    /// The number of `reserved_name`.
    pub const RESERVED_NAME: i32 = 5;

    /// The field numbers of `EnumDescriptorProto.EnumReservedRange`.
    pub mod reserved_range {
        /// The number of `start`.
        pub const START: i32 = 1;

        /// The number of `end`.
        pub const END: i32 = 2;
    }
}

/// The field numbers of `EnumValueDescriptorProto`.
pub mod enum_value {
    /// The number of `name`.
    pub const NAME: i32 = 1;

    /// The number of `number`.
    pub const NUMBER: i32 = 2;

    /// The number of `options`.
    pub const OPTIONS: i32 = 3;
}

/// The field numbers of `ServiceDescriptorProto`.
pub mod service {
    /// The number of `name`.
    pub const NAME: i32 = 1;

    /// The number of `method`.
    pub const METHOD: i32 = 2;

    /// The number of `options`.
    pub const OPTIONS: i32 = 3;
}

/// The field numbers of `MethodDescriptorProto`.
pub mod method {
    /// The number of `name`.
    pub const NAME: i32 = 1;

    /// The number of `input_type`.
    pub const INPUT_TYPE: i32 = 2;

    /// The number of `output_type`.
    pub const OUTPUT_TYPE: i32 = 3;

    /// The number of `options`.
    pub const OPTIONS: i32 = 4;

    /// The number of `client_streaming`.
    pub const CLIENT_STREAMING: i32 = 5;

    /// The number of `server_streaming`.
    pub const SERVER_STREAMING: i32 = 6;
}
