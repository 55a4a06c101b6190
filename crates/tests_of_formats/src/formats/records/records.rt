//! Records of two files, as their layouts prescribe them: a payment that is sent, and its return.

mod faults;
mod printing;
mod viewing;

/// Information about the payment.
const INFORMATION: &[u8; 94] =
    b"705INVOICE 7 AND 8                                                                 00010000001";

/// The right account number of a payment.
const CHANGE: &[u8; 94] =
    b"798C01121042880000001      09100001987654321                                   091000010000007";
