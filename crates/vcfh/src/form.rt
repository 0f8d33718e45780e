// The form in which the program stores entries, which has the larger limits.
use entries::form::Form;

pub const FORM: Form = Form::Second;
