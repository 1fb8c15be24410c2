use crate::{
    decoding_goes_on, one_decoding, one_list_of_lines, one_reading, one_table, written_tables,
};

#[test]
fn laws() {
    one_reading();
    one_list_of_lines();
    one_table();
    one_decoding();
    decoding_goes_on();
    written_tables();
}
