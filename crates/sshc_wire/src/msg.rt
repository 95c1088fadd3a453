//! Message numbers (RFC 4250, section 4.1.2; RFC 4252, section 7; RFC 4254, section 9; RFC 4256, section 5; RFC 4462,
//! section 3; RFC 8308, section 2.3). What 60 and 61 mean depends on the method that was asked for.

pub const DISCONNECT: u8 = 1;

pub const IGNORE: u8 = 2;

pub const UNIMPLEMENTED: u8 = 3;

pub const DEBUG: u8 = 4;

pub const SERVICE_REQUEST: u8 = 5;

pub const SERVICE_ACCEPT: u8 = 6;

pub const EXT_INFO: u8 = 7;

pub const USERAUTH_REQUEST: u8 = 50;

pub const USERAUTH_FAILURE: u8 = 51;

pub const USERAUTH_SUCCESS: u8 = 52;

pub const USERAUTH_BANNER: u8 = 53;

/// Of the public key's method: the key would do.
pub const USERAUTH_PK_OK: u8 = 60;

/// Of prompts.
pub const USERAUTH_INFO_REQUEST: u8 = 60;

pub const USERAUTH_INFO_RESPONSE: u8 = 61;

/// Of GSSAPI.
pub const USERAUTH_GSSAPI_RESPONSE: u8 = 60;

pub const USERAUTH_GSSAPI_TOKEN: u8 = 61;

pub const USERAUTH_GSSAPI_EXCHANGE_COMPLETE: u8 = 63;

pub const USERAUTH_GSSAPI_ERROR: u8 = 64;

pub const USERAUTH_GSSAPI_ERRTOK: u8 = 65;

pub const USERAUTH_GSSAPI_MIC: u8 = 66;

pub const GLOBAL_REQUEST: u8 = 80;

pub const REQUEST_SUCCESS: u8 = 81;

pub const REQUEST_FAILURE: u8 = 82;

pub const CHANNEL_OPEN: u8 = 90;

pub const CHANNEL_OPEN_CONFIRMATION: u8 = 91;

pub const CHANNEL_OPEN_FAILURE: u8 = 92;

pub const CHANNEL_WINDOW_ADJUST: u8 = 93;

pub const CHANNEL_DATA: u8 = 94;

pub const CHANNEL_EXTENDED_DATA: u8 = 95;

pub const CHANNEL_EOF: u8 = 96;

pub const CHANNEL_CLOSE: u8 = 97;

pub const CHANNEL_REQUEST: u8 = 98;

pub const CHANNEL_SUCCESS: u8 = 99;

pub const CHANNEL_FAILURE: u8 = 100;
