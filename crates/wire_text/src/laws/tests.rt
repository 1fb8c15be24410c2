use crate::{one_block_of_a_text, one_list_of_requests, one_request, one_value_of_a_text};

#[test]
fn laws() {
    one_request();
    one_list_of_requests();
    one_value_of_a_text();
    one_block_of_a_text();
}
