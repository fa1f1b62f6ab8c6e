//! Why a request is not answered.

use study_listing::Unread;
use study_material::Class;
use study_reply::Refusal;

/// Why a request is not answered.
#[derive(Clone, Copy, Debug, PartialEq, Eq)]
pub enum RequestFault {
    /// A refusal that the script's replies name too.
    Refused(Refusal),
    /// The file of the class is not a table, or is the table of another class.
    OfFile(Class, Refusal),
    /// There is no man on the square.
    NoMan,
    /// The words of a search name no known theme or filter.
    Unread(Unread),
}
