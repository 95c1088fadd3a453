//! How a user is to be authenticated, by its number in an event.

ghost use Rattle.std.specs.Prelude.{◌≡◌};
ghost use Rattle.sshc_run_reader.specs.MethodSorts.{method_sort_numbered};

/// How a user is to be authenticated, by its number in an event.
#[derive(Clone, Copy, PartialEq, Eq)]
pub enum MethodSort {
    Nothing,
    Password,
    PublicKey,
    OpenSshCertificate,
    FuturePublicKey,
    FutureCertificate,
    KeyboardInteractive,
    GssapiWithMic,
}

impl MethodSort {
    /// The sort with this number; `None` for any other number.
    pub fn from_u8(number: u8) -> Option<MethodSort>
        ensures { result ≡ method_sort_numbered number }
    {
        match number {
            0 => Some(MethodSort::Nothing),
            1 => Some(MethodSort::Password),
            2 => Some(MethodSort::PublicKey),
            3 => Some(MethodSort::OpenSshCertificate),
            4 => Some(MethodSort::FuturePublicKey),
            5 => Some(MethodSort::FutureCertificate),
            6 => Some(MethodSort::KeyboardInteractive),
            7 => Some(MethodSort::GssapiWithMic),
            _ => None,
        }
    }
}
